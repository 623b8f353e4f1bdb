// A store that is a log: its rows are the replay of the changes that it keeps.
#![tactic(auto)]

ghost use Rattle.std.specs.Prelude.{◌≡◌, ◌+◌, ◌*◌, ◌≤◌, length};
ghost use Rattle.journal.specs.Changes.{live};
ghost use Rattle.journal.specs.Log.{logged, places_of};

pub mod changes;
pub mod disk;
mod entry;
mod index;
mod log;
mod places;

use log::Log;
use store::budget::Budget;

// It is made for the rows that stand and those that are free, and has places for twice as many changes and one more.
#[derive(Drop)]
pub struct Journal {
    log: Log,
    budget: Budget,
    ghost rows: { budget.free + length (live (logged log)) ≤ 1152 },
    ghost room: { places_of log ≡ 2 * (budget.free + length (live (logged log))) + 1 },
}
