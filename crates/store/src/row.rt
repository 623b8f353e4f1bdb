// Memory for one row.
ghost use Rattle.std.specs.Prelude.{◌≤◌, vec_len, vec_capacity};

pub mod ops;

// The bytes of a row, in memory for 560 that was got when it was made.
#[derive(Drop)]
pub struct RowBuffer {
    bytes: Vec<u8>,
    ghost room: { 560 ≤ vec_capacity bytes },
    ghost short: { vec_len bytes ≤ 560 },
}
