// A table and a journal that are made for the same number of rows agree, whatever is asked of them.
#![tactic(auto)]

ghost use Rattle.std.specs.Prelude.{◌≡◌, IfOk};
ghost use Rattle.agreement.specs.Calls.{Agrees, answer_of, answers, load_length, next, ran_after, Runs};

use journal::Journal;
use std::alloc::{AllocError, Global};
use store::change::Change;
use store::kind::{Kind, Refusal};
use store::making::{Made, MakeError};
use store::{ROW_BYTES, Store};
use table::Table;

/// A call on a store.
#[derive(Drop)]
pub enum Call {
    Load { kind: Kind, number: u32 },
    Write(Change),
    Power { writes: u32 },
    Free,
    Limit { kind: Kind },
}

/// The number that a call answers, 0 where it answers none, or its refusal.
pub type Answer = Result<usize, Refusal>;

// The length of a row.
fn load_length<S: Store>(store: &S, kind: Kind, number: u32) -> Answer
    ensures answer { result ≡ load_length (S.Store.disk store.now) kind number }
{
    let mut buffer = [0u8; ROW_BYTES];
    store.load(kind, number, &mut buffer)
}

impl Call {
    /// Makes this one call.
    pub fn make<S: Store>(&self, store: &mut S) -> Answer
        ensures answer { result ≡ answer_of (S.Store.disk store.old) self.now }
        ensures after { S.Store.disk store.new ≡ next (S.Store.disk store.old) self.now }
        ensures rest { S.Store.rest store.new ≡ S.Store.rest store.old }
    {
        match self {
            Call::Load { kind, number } => load_length(&*store, *kind, *number),
            Call::Write(change) => change.make(store).map(|()| 0),
            Call::Power { writes } => {
                store.power(*writes);
                Ok(0)
            }
            Call::Free => Ok(store.free() as usize),
            Call::Limit { kind } => Ok(store.limit(*kind) as usize),
        }
    }
}

/// Makes the calls in order, refused ones too, and answers one number or refusal each. Want of memory for the answers
/// comes before the first call.
// Apart from `store::change::apply`: a loop of three lines is all that they share, and one for both would take a trait
// with the answer, the disk and the rest after as laws.
pub fn run<S: Store>(heap: Global, store: &mut S, calls: &[Call]) -> Result<Vec<Answer>, AllocError>
    ensures answer { IfOk result (λ v. v.items ≡ answers (S.Store.disk store.old) calls.now) }
    ensures after { S.Store.disk store.new ≡ ran_after result (S.Store.disk store.old) calls.now }
    ensures rest { S.Store.rest store.new ≡ S.Store.rest store.old }
{
    let mut answers = Vec::with_capacity(heap, calls.len())?;
    for call in calls {
        answers.push_reserved(call.make(store));
    }
    Ok(answers)
}

/// A table and a journal after the same calls, and what each answered.
#[derive(Drop)]
pub struct Agreement {
    pub table: Table,
    pub journal: Journal,
    pub of_table: Vec<Answer>,
    pub of_journal: Vec<Answer>,
}

// Makes a store for so many rows and the calls on it.
fn make_and_run<S: Made + Drop>(
    heap: Global,
    rows: u32,
    calls: &[Call],
) -> Result<(S, Vec<Answer>), MakeError>
    ensures answer { Runs S.Store.disk rows calls.now result }
{
    let mut store = S::new(heap, rows)?;
    let answers = run(heap, &mut store, calls)?;
    Ok((store, answers))
}

/// Makes a table and a journal for so many rows and the same calls on each: the answers are the same, and so is all that
/// the two show then.
pub fn agree(heap: Global, rows: u32, calls: &[Call]) -> Result<Agreement, MakeError>
    ensures answer { Agrees rows calls.now result }
{
    let (table, of_table) = make_and_run::<Table>(heap, rows, calls)?;
    let (journal, of_journal) = make_and_run::<Journal>(heap, rows, calls)?;
    Ok(Agreement {
        table,
        journal,
        of_table,
        of_journal,
    })
}
