// Where the latest change of each key stands.
ghost use Rattle.std.specs.Prelude.{◌≡◌, vec_len};

pub mod ops;

// In each key's slot the place of the key's latest change, if that change puts a row.
// Slots and no map: no call allocates.
#[derive(Drop)]
pub(crate) struct Index {
    slots: Vec<Option<usize>>,
    ghost keys: { vec_len slots ≡ 1152 },
}
