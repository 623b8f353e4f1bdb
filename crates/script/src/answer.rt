// The answer to a line of a script.
ghost use Rattle.std.specs.Prelude.{IfOk, Some, Ok, string_bytes};
ghost use Rattle.store.specs.Making.{Makes};
ghost use Rattle.pile.specs.Pile.{pile_disk};
ghost use Rattle.script.specs.declared.command.Command.TheVariants.{Call as ACall};
ghost use Rattle.script.specs.Command.{asked, put};
ghost use Rattle.script.specs.Answer.{On, Prints, StoreTurn, WindowOn, WindowRefused, NotUnderstood, Performs, Tells, Answers};

use crate::calls::{drop_line, free_line, limit_line, load_line, put_line};
use crate::command::{BaseName, Call, Command, UnknownCommand, read_command};
use journal::Journal;
use lines::escape::Escaped;
use lines::hex::hex_bytes;
use pile::Pile;
use pile::ops::{StackRefusal, Unstacked};
use std::alloc::{AllocError, Global};
use store::Store;
use store::kind::Kind;
use store::making::MakeError;
use table::Table;
use window::span::Spans;

// The store that stands after a line, and the text to print, which is empty for an empty line.
#[derive(Drop)]
pub struct Turn {
    pub pile: Option<Pile>,
    pub text: String,
}

// Answers a line on the store that stands; the error is want of memory for the text.
pub fn answer(heap: Global, pile: Option<Pile>, line: &[u8]) -> Result<Turn, AllocError>
    ensures answer { IfOk result (λ t. Answers pile line.now t) }
{
    perform(heap, pile, read_command(line), line)
}

// Performs a command on the store that stands; a line that cannot be performed is not understood.
pub fn perform(
    heap: Global,
    pile: Option<Pile>,
    command: Result<Command<'_>, UnknownCommand>,
    line: &[u8],
) -> Result<Turn, AllocError>
    ensures answer { IfOk result (λ t. Performs (asked command.entry) pile line.now t) }
{
    match (command, pile) {
        (Ok(Command::Nothing), pile) => Ok(Turn {
            pile,
            text: String::new(heap),
        }),
        (Ok(Command::Store { base, rows }), _) => store_turn(heap, base, rows),
        (Ok(Command::Window { spans }), Some(pile)) => window_turn(heap, pile, spans, line),
        (Ok(Command::Call(call)), Some(pile)) => call_turn(heap, pile, call, line),
        (_, pile) => not_understood(heap, pile, line),
    }
}

fn store_turn(heap: Global, base: BaseName, rows: u32) -> Result<Turn, AllocError>
    ensures answer { IfOk result (λ t. StoreTurn base rows t.pile (string_bytes t.text)) }
{
    match make(heap, base, rows) {
        Ok(pile) => Turn::new(heap, Some(pile), "store done\n"),
        Err(MakeError::Bad) => Turn::new(heap, None, "store bad\n"),
        Err(MakeError::NoMemory) => Turn::new(heap, None, "store memory\n"),
    }
}

fn make(heap: Global, base: BaseName, rows: u32) -> Result<Pile, MakeError>
    ensures answer { Makes pile_disk rows result }
    ensures base { IfOk result (On base) }
{
    match base {
        BaseName::Table => Pile::new::<Table>(heap, rows),
        BaseName::Journal => Pile::new::<Journal>(heap, rows),
    }
}

fn window_turn(heap: Global, pile: Pile, spans: Spans, line: &[u8]) -> Result<Turn, AllocError>
    ensures answer { IfOk result (λ t. WindowOn spans pile line.now t) }
{
    match pile.window(spans) {
        Ok(pile) => Turn::new(heap, Some(pile), "window done\n"),
        Err(refused) => refused_turn(heap, refused, line),
    }
}

fn refused_turn(heap: Global, refused: Unstacked, line: &[u8]) -> Result<Turn, AllocError>
    ensures answer { IfOk result (λ t. WindowRefused refused.why refused.pile line.now t) }
{
    let Unstacked { pile, why } = refused;
    match why {
        StackRefusal::Beyond => Turn::new(heap, Some(pile), "window refused 13\n"),
        StackRefusal::Full => not_understood(heap, Some(pile), line),
    }
}

fn call_turn(heap: Global, mut pile: Pile, call: Call<'_>, line: &[u8]) -> Result<Turn, AllocError>
    ensures answer { IfOk result (λ t. Performs (asked (Ok (ACall call.entry))) (Some pile) line.now t) }
{
    match call_text(heap, &mut pile, call)? {
        Some(text) => Ok(Turn {
            pile: Some(pile),
            text,
        }),
        None => not_understood(heap, Some(pile), line),
    }
}

// What a call on a store prints, or none where its row is not written in hexadecimal.
fn call_text(heap: Global, pile: &mut Pile, call: Call<'_>) -> Result<Option<String>, AllocError>
    ensures answer { IfOk result (λ text. Tells (asked (Ok (ACall call.entry))) pile.old pile.new text) }
{
    match call {
        Call::Load { kind, number } => Ok(Some(load_line(heap, pile, kind, number)?)),
        Call::Put { kind, number, hex } => put_text(heap, pile, kind, number, hex),
        Call::Drop { kind, number } => Ok(Some(drop_line(heap, pile, kind, number)?)),
        Call::Power { writes } => {
            pile.power(writes);
            Ok(Some(String::from_str(heap, "power done 0\n")?))
        }
        Call::Free => Ok(Some(free_line(heap, pile)?)),
        Call::Limit { kind } => Ok(Some(limit_line(heap, pile, kind)?)),
    }
}

fn put_text(
    heap: Global,
    pile: &mut Pile,
    kind: Kind,
    number: u32,
    hex: &[u8],
) -> Result<Option<String>, AllocError>
    ensures answer { IfOk result (λ text. Tells (put kind number hex.now) pile.old pile.new text) }
{
    let Some(row) = hex_bytes(heap, hex)? else {
        return Ok(None);
    };
    Ok(Some(put_line(heap, pile, kind, number, row.as_slice())?))
}

impl Turn {
    // A store, if one stands then, and a text to print.
    fn new(heap: Global, pile: Option<Pile>, text: &str) -> Result<Turn, AllocError>
        ensures answer { IfOk result (Prints pile text.now) }
    {
        let text = String::from_str(heap, text)?;
        Ok(Turn { pile, text })
    }
}

// `? ` and the line as escaped text; what stood before stands. One `format!` is all that the technician's tool shares with it. Heap, pile and
// line stay apart: a struct of them would be taken apart in each function.
fn not_understood(heap: Global, pile: Option<Pile>, line: &[u8]) -> Result<Turn, AllocError>
    ensures answer { IfOk result (λ t. NotUnderstood pile line.now t) }
{
    let escaped = Escaped(line);
    let text = format!(in heap; "? {escaped}\n")?;
    Ok(Turn { pile, text })
}
