// The remaining length of a packet: one to four bytes of seven bits, lowest first.
ghost use Rattle.std.specs.Prelude.{◌≡◌, ◌≤◌, length as len};

pub mod ops;

// A length as it is written, in one to four bytes. A fixed array and a count: nothing here allocates.
#[derive(Clone, Copy)]
pub struct LengthBytes {
    bytes: [u8; 4],
    count: usize,
    ghost four: { len bytes ≡ 4 },
    ghost few: { count ≤ 4 },
}
