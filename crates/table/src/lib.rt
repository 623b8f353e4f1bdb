// A store in memory, all of it got when the store is made.
#![tactic(auto)]

ghost use Rattle.std.specs.Prelude.{◌+◌, ◌≤◌};
ghost use Rattle.table.specs.Rows.{contents, standing};

pub mod disk;
mod rows;
#[cfg(test)]
mod tests;

use rows::Rows;
use store::budget::Budget;

// At most as many rows stand as it was made for.
#[derive(Drop)]
pub struct Table {
    rows: Rows,
    budget: Budget,
    ghost counted: { budget.free + standing (contents rows) ≤ 1152 },
}
