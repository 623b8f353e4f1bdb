// Keys of rows within the limits of a store made here.
ghost use Rattle.std.specs.Prelude.{◌<◌};
ghost use Rattle.store.specs.Making.{made_limit};

use crate::kind::Kind;

pub mod ops;

// A kind and a number below the kind's limit.
#[derive(Clone, Copy, PartialEq, Eq, Debug)]
pub struct Key {
    kind: Kind,
    number: u32,
    ghost inside: { number < made_limit kind },
}
