// Operations on a store one after another, for a caller in another language.
ghost use Rattle.std.specs.Prelude.{◌≡◌, length, IfOk, vec_len};
ghost use Rattle.exports.specs.Script.{replies, buffer_once_run, code_of, Ran, RanOn};

use crate::operation::Operation;
use journal::Journal;
use std::alloc::{AllocError, Global};
use store::Store;
use store::making::{Made, MakeError};
use table::Table;

// Performs the operations in order and answers one number each. Want of memory comes before the first.
// Apart from `store::change::apply`: a loop of three lines is all that they share, and one for both would take a trait
// with the answer, the disk and the buffer after as laws. Heap and slices go on one by one: C hands them so.
fn run<S: Store>(
    heap: Global,
    store: &mut S,
    script: &[u64],
    pool: &[u8],
    buffer: &mut [u8],
) -> Result<Vec<u64>, AllocError>
    ensures answer { IfOk result (λ v. v.items ≡ replies (S.Store.disk store.old) pool.now buffer.old script.now) }
    ensures len { IfOk result (λ v. vec_len v ≡ length script.now) }
    ensures buffer { buffer.new ≡ buffer_once_run result (S.Store.disk store.old) pool.now buffer.old script.now }
{
    let mut answers = Vec::with_capacity(heap, script.len())?;
    for word in script {
        answers.push_reserved(Operation::from(*word).perform(store, pool, buffer));
    }
    Ok(answers)
}

// Puts the answers at the start of the caller's; fewer places than operations are bad.
fn run_into<S: Store>(
    heap: Global,
    store: &mut S,
    script: &[u64],
    pool: &[u8],
    buffer: &mut [u8],
    answers: &mut [u64],
) -> Result<(), MakeError>
    ensures answer { RanOn (S.Store.disk store.old) script.now pool.now buffer.old answers.old (code_of result) buffer.new answers.new }
{
    if answers.len() < script.len() {
        return Err(MakeError::Bad);
    }
    let replies = run(heap, store, script, pool, buffer)?;
    answers[0..replies.len()].copy_from_slice(replies.as_slice());
    Ok(())
}

// The same on a new store for so many rows.
fn run_on_new<S: Made + Drop>(
    heap: Global,
    rows: u32,
    script: &[u64],
    pool: &[u8],
    buffer: &mut [u8],
    answers: &mut [u64],
) -> Result<(), MakeError>
    ensures answer { Ran rows script.now pool.now buffer.old answers.old (code_of result) buffer.new answers.new }
{
    let mut store = S::new(heap, rows)?;
    run_into(heap, &mut store, script, pool, buffer, answers)
}

// 0 where all was performed, else the error's number.
fn code_of(run: Result<(), MakeError>) -> u32
    ensures answer { result ≡ code_of run }
{
    match run {
        Ok(()) => 0,
        Err(MakeError::Bad) => 1,
        Err(MakeError::NoMemory) => 2,
    }
}

// Performs a script on a new table for so many rows. 0: all answers are there; 1: more than 1,152 rows, or fewer
// answers than operations; 2: not enough memory. Unless 0, nothing was performed.
#[unsafe(no_mangle)]
pub extern "C" fn merukpa_table(
    heap: Global,
    rows: u32,
    script: &[u64],
    pool: &[u8],
    buffer: &mut [u8],
    answers: &mut [u64],
) -> u32
    ensures answer { Ran rows script.now pool.now buffer.old answers.old result buffer.new answers.new }
{
    code_of(run_on_new::<Table>(heap, rows, script, pool, buffer, answers))
}

// The same on a new journal. Two exported names, since C has no type parameters.
#[unsafe(no_mangle)]
pub extern "C" fn merukpa_journal(
    heap: Global,
    rows: u32,
    script: &[u64],
    pool: &[u8],
    buffer: &mut [u8],
    answers: &mut [u64],
) -> u32
    ensures answer { Ran rows script.now pool.now buffer.old answers.old result buffer.new answers.new }
{
    code_of(run_on_new::<Journal>(heap, rows, script, pool, buffer, answers))
}
