// Calls on any store, each with the line that tells what it answered. A kind and a number stay two plain values, as in `store`.
ghost use Rattle.std.specs.Prelude.{◌≡◌, IfOk, string_bytes};
ghost use Rattle.store.specs.Disk.{put_answer, put_after, drop_answer, drop_after};
ghost use Rattle.script.specs.Texts.{row_word, loaded_text, load_text, put_text, drop_text, free_text, limit_text};

use crate::texts::end_word;
use lines::hex::Hex;
use std::alloc::{AllocError, Global};
use store::kind::Kind;
use store::{ROW_BYTES, Store};

// The row's length and bytes, or that the key is bad.
pub fn load_line<S: Store>(
    heap: Global,
    store: &S,
    kind: Kind,
    number: u32,
) -> Result<String, AllocError>
    ensures answer { IfOk result (λ t. string_bytes t ≡ load_text (S.Store.disk store.now) kind number) }
{
    let mut buffer = [0u8; ROW_BYTES];
    let key = kind.number();
    match store.load(kind, number, &mut buffer) {
        Ok(len) => loaded_line(heap, kind, number, &buffer[0..len]),
        Err(_) => format!(in heap; "load {key} {number} bad\n"),
    }
}

// That a row with these bytes was loaded.
fn loaded_line(heap: Global, kind: Kind, number: u32, row: &[u8]) -> Result<String, AllocError>
    ensures answer { IfOk result (λ t. string_bytes t ≡ loaded_text kind number row.now) }
{
    let key = kind.number();
    let len = row.len();
    let bytes = row_word(heap, row)?;
    format!(in heap; "load {key} {number} done {len}{bytes}\n")
}

// A blank and the bytes of a row, nothing where there are none.
fn row_word(heap: Global, row: &[u8]) -> Result<String, AllocError>
    ensures answer { IfOk result (λ t. string_bytes t ≡ row_word row.now) }
{
    if row.is_empty() {
        return Ok(String::new(heap));
    }
    let hex = Hex(row);
    format!(in heap; " {hex}")
}

// Puts a row, and tells how that ended.
pub fn put_line<S: Store>(
    heap: Global,
    store: &mut S,
    kind: Kind,
    number: u32,
    row: &[u8],
) -> Result<String, AllocError>
    ensures answer { IfOk result (λ t. string_bytes t ≡ put_text (S.Store.disk store.old) kind number row.now) }
    ensures after { S.Store.disk store.new ≡ put_after (put_answer (S.Store.disk store.old) kind number row.now) (S.Store.disk store.old) kind number row.now }
    ensures rest { S.Store.rest store.new ≡ S.Store.rest store.old }
{
    let key = kind.number();
    let end = end_word(store.put(kind, number, row));
    format!(in heap; "put {key} {number} {end}\n")
}

// Drops a row, and tells how that ended.
pub fn drop_line<S: Store>(
    heap: Global,
    store: &mut S,
    kind: Kind,
    number: u32,
) -> Result<String, AllocError>
    ensures answer { IfOk result (λ t. string_bytes t ≡ drop_text (S.Store.disk store.old) kind number) }
    ensures after { S.Store.disk store.new ≡ drop_after (drop_answer (S.Store.disk store.old) kind number) (S.Store.disk store.old) kind number }
    ensures rest { S.Store.rest store.new ≡ S.Store.rest store.old }
{
    let key = kind.number();
    let end = end_word(store.drop_row(kind, number));
    format!(in heap; "drop {key} {number} {end}\n")
}

// How many rows more can be put.
pub fn free_line<S: Store>(heap: Global, store: &S) -> Result<String, AllocError>
    ensures answer { IfOk result (λ t. string_bytes t ≡ free_text (S.Store.disk store.now)) }
{
    let free = store.free();
    format!(in heap; "free {free}\n")
}

// The limit of one kind.
pub fn limit_line<S: Store>(heap: Global, store: &S, kind: Kind) -> Result<String, AllocError>
    ensures answer { IfOk result (λ t. string_bytes t ≡ limit_text (S.Store.disk store.now) kind) }
{
    let key = kind.number();
    let limit = store.limit(kind);
    format!(in heap; "limit {key} {limit}\n")
}
