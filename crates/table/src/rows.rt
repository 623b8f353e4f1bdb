// Memory for the rows at all keys.
ghost use Rattle.std.specs.Prelude.{◌≡◌, vec_len};

use store::row::RowBuffer;

pub mod ops;

// A place for every key: sessions by number, then messages. Places and no map: no call allocates.
#[derive(Drop)]
pub(crate) struct Rows {
    places: Vec<RowBuffer>,
    ghost keys: { vec_len places ≡ 1152 },
}
