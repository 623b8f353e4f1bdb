// One operation on a store, written as a number.
ghost use Rattle.std.specs.Prelude.{◌≡◌};
ghost use Rattle.exports.specs.Operation.{kind_in, operation_in, refusal_number, length_number, row_in, reply, disk_after, buffer_after};

use store::Store;
use store::kind::{Kind, Refusal};

// A put takes its row from a pool of bytes, from `start` on.
#[derive(Clone, Copy)]
pub enum Operation {
    Put {
        kind: Kind,
        number: u32,
        start: usize,
        length: usize,
    },
    Remove {
        kind: Kind,
        number: u32,
    },
    Load {
        kind: Kind,
        number: u32,
    },
    Power {
        writes: u32,
    },
    Free,
}

// The kind in bits 8 to 15: 0 for sessions, any other for messages. By hand, as any other number is a kind here alone.
fn kind_in(word: u64) -> Kind
    ensures answer { result ≡ kind_in word }
{
    if word / 256 % 256 == 0 {
        Kind::Session
    } else {
        Kind::Message
    }
}

// Bits 0 to 7 are 0 for put, 1 for drop, 2 for load, 3 for power, any other for free; then the kind;
// then the row's number or the writes left, the start and the length of the row in 16 bits each. C hands it so.
impl From<u64> for Operation {
    ghost from_gives = { λ word operation. operation ≡ operation_in word };

    fn from(word: u64) -> Operation {
        let kind = kind_in(word);
        let number = (word / 65536 % 65536) as u32;
        match word % 256 {
            0 => Operation::Put {
                kind,
                number,
                start: (word / 4294967296 % 65536) as usize,
                length: (word / 281474976710656) as usize,
            },
            1 => Operation::Remove { kind, number },
            2 => Operation::Load { kind, number },
            3 => Operation::Power { writes: number },
            _ => Operation::Free,
        }
    }
}

impl Operation {
    // Does it and answers a number, as C takes it: the row's length or the free rows, 0 for done, or 2^32 and the refusal's number.
    pub fn perform<S: Store>(self, store: &mut S, pool: &[u8], buffer: &mut [u8]) -> u64
        ensures answer { result ≡ reply (S.Store.disk store.old) pool.now buffer.old self }
        ensures after { S.Store.disk store.new ≡ disk_after (S.Store.disk store.old) pool.now self }
        ensures buffer { buffer.new ≡ buffer_after (S.Store.disk store.old) buffer.old self }
    {
        match self {
            Operation::Put {
                kind,
                number,
                start,
                length,
            } => number_of(
                store
                    .put(kind, number, row_in(pool, start, length))
                    .map(|()| 0),
            ),
            Operation::Remove { kind, number } => {
                number_of(store.drop_row(kind, number).map(|()| 0))
            }
            Operation::Load { kind, number } => {
                number_of(store.load(kind, number, buffer).map(|length| length as u64))
            }
            Operation::Power { writes } => {
                store.power(writes);
                0
            }
            Operation::Free => store.free() as u64,
        }
    }
}

// So many bytes of the pool from `start` on, or none where it has not so many.
fn row_in(pool: &[u8], start: usize, length: usize) -> &[u8]
    ensures answer { result.now ≡ row_in pool.now start length }
{
    pool.get(start..)
        .and_then(|rest| rest.get(..length))
        .unwrap_or(&[])
}

// The row's length, 0 for done, or the refusal's number. Called in each arm that can be refused: one call behind the `match` was slower.
fn number_of(answer: Result<u64, Refusal>) -> u64
    ensures answer { result ≡ length_number answer }
{
    answer.unwrap_or_else(refusal_number)
}

// 2^32 and the refusal's number, which the C interface alone has.
fn refusal_number(refusal: Refusal) -> u64
    ensures answer { result ≡ refusal_number refusal }
{
    match refusal {
        Refusal::Bad => 4294967297,
        Refusal::Gone => 4294967298,
        Refusal::NoRoom => 4294967299,
    }
}
