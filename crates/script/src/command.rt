// The commands of a script.
ghost use Rattle.std.specs.Prelude.{◌≡◌};
ghost use Rattle.std.specs.Result.{result_ok};
ghost use Rattle.script.specs.Command.{asked, base_in, span_in, bare_of, one_of, two_of, three_of, four_of, Asks};
ghost use Rattle.store.specs.Kind.{kind_of};

use lines::decimal::read_decimal;
use lines::words::{is_word, next_word};
use std::num::TryFromIntError;
use store::kind::{Kind, UnknownKind};
use window::span::{Span, Spans};

// What a store is made of.
#[derive(Clone, Copy, PartialEq, Eq, Debug)]
pub enum BaseName {
    Table,
    Journal,
}

// What a line asks for.
#[derive(Clone, Copy)]
pub enum Command<'a> {
    // The line has no word: a command of its own, which prints nothing.
    Nothing,
    Store { base: BaseName, rows: u32 },
    Window { spans: Spans },
    Call(Call<'a>),
}

// A call on the store that stands; a row in hexadecimal is a part of the line. Apart from `agreement::Call`, whose row is a Vec: one enum
// would take the row's type as a parameter, and what is done with a call is not shared.
#[derive(Clone, Copy)]
pub enum Call<'a> {
    Load {
        kind: Kind,
        number: u32,
    },
    Put {
        kind: Kind,
        number: u32,
        hex: &'a [u8],
    },
    Drop {
        kind: Kind,
        number: u32,
    },
    Power {
        writes: u32,
    },
    Free,
    Limit {
        kind: Kind,
    },
}

// The line is no command. Apart from the technician's tool's, as the `?`s here take `From`s of its own.
#[derive(Clone, Copy, PartialEq, Eq, Debug)]
pub struct UnknownCommand;

impl From<TryFromIntError> for UnknownCommand {
    fn from(_error: TryFromIntError) -> UnknownCommand {
        UnknownCommand
    }
}

impl From<UnknownKind> for UnknownCommand {
    fn from(_number: UnknownKind) -> UnknownCommand {
        UnknownCommand
    }
}

// The command that a line is: its name and just as many words more as it takes.
pub fn read_command(line: &[u8]) -> Result<Command<'_>, UnknownCommand>
    ensures answer { Asks line.now (asked result) }
{
    let (name, rest) = next_word(line);
    let (first, rest) = next_word(rest);
    let (second, rest) = next_word(rest);
    let (third, rest) = next_word(rest);
    let (fourth, rest) = next_word(rest);
    let (fifth, _) = next_word(rest);
    let a = read_decimal(first);
    let b = read_decimal(second);
    let c = read_decimal(third);
    let d = read_decimal(fourth);
    match [name, first, second, third, fourth, fifth] {
        [[], ..] => Ok(Command::Nothing),
        [_, [], ..] => bare(name),
        [_, _, [], ..] => with_one(name, a),
        [_, _, _, [], ..] => with_two(name, first, a, b),
        [_, _, _, _, [], ..] => with_three(name, a, b, third),
        [_, _, _, _, _, []] => with_four(name, a, b, c, d),
        _ => Err(UnknownCommand),
    }
}

fn bare<'a>(name: &[u8]) -> Result<Command<'a>, UnknownCommand>
    ensures answer { asked result ≡ bare_of name.now }
{
    if is_word(name, b"free") {
        Ok(Command::Call(Call::Free))
    } else {
        Err(UnknownCommand)
    }
}

fn with_one<'a>(name: &[u8], number: Option<u32>) -> Result<Command<'a>, UnknownCommand>
    ensures answer { asked result ≡ one_of name.now number }
{
    let number = number.ok_or(UnknownCommand)?;
    if is_word(name, b"power") {
        Ok(Command::Call(Call::Power { writes: number }))
    } else if is_word(name, b"limit") {
        let kind = kind_of(number)?;
        Ok(Command::Call(Call::Limit { kind }))
    } else {
        Err(UnknownCommand)
    }
}

fn with_two<'a>(
    name: &[u8],
    first: &[u8],
    first_number: Option<u32>,
    number: Option<u32>,
) -> Result<Command<'a>, UnknownCommand>
    ensures answer { asked result ≡ two_of name.now first.now first_number number }
{
    let number = number.ok_or(UnknownCommand)?;
    if is_word(name, b"store") {
        let base = base_of(first)?;
        return Ok(Command::Store { base, rows: number });
    }
    let kind = kind_of(first_number.ok_or(UnknownCommand)?)?;
    if is_word(name, b"load") {
        Ok(Command::Call(Call::Load { kind, number }))
    } else if is_word(name, b"drop") {
        Ok(Command::Call(Call::Drop { kind, number }))
    } else {
        Err(UnknownCommand)
    }
}

// No TryFrom: the error speaks of a line.
fn base_of(what: &[u8]) -> Result<BaseName, UnknownCommand>
    ensures answer { result_ok result ≡ base_in what.now }
{
    if is_word(what, b"table") {
        Ok(BaseName::Table)
    } else if is_word(what, b"journal") {
        Ok(BaseName::Journal)
    } else {
        Err(UnknownCommand)
    }
}

fn with_three<'a>(
    name: &[u8],
    kind: Option<u32>,
    number: Option<u32>,
    hex: &'a [u8],
) -> Result<Command<'a>, UnknownCommand>
    ensures answer { asked result ≡ three_of name.now kind number hex.now }
{
    let number = number.ok_or(UnknownCommand)?;
    let kind = kind_of(kind.ok_or(UnknownCommand)?)?;
    if is_word(name, b"put") {
        Ok(Command::Call(Call::Put { kind, number, hex }))
    } else {
        Err(UnknownCommand)
    }
}

fn with_four<'a>(
    name: &[u8],
    session_base: Option<u32>,
    session_width: Option<u32>,
    message_base: Option<u32>,
    message_width: Option<u32>,
) -> Result<Command<'a>, UnknownCommand>
    ensures answer { asked result ≡ four_of name.now session_base session_width message_base message_width }
{
    if !is_word(name, b"window") {
        return Err(UnknownCommand);
    }
    let sessions = span_of(session_base, session_width).ok_or(UnknownCommand)?;
    let messages = span_of(message_base, message_width).ok_or(UnknownCommand)?;
    Ok(Command::Window {
        spans: Spans { sessions, messages },
    })
}

fn span_of(base: Option<u32>, width: Option<u32>) -> Option<Span>
    ensures answer { result ≡ span_in base width }
{
    Some(Span {
        base: base?,
        width: width?,
    })
}

fn kind_of(number: u32) -> Result<Kind, UnknownCommand>
    ensures answer { result_ok result ≡ kind_of number }
{
    Ok(Kind::try_from(u8::try_from(number)?)?)
}
