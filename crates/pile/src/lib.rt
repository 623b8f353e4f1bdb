// The stores that a script can stack: a table or a journal under at most three windows.
#![tactic(auto)]

pub mod base;
pub mod ops;

use base::Base;
use window::Window;

// A store under as many windows as the name says, each on the one before it.
// A variant for each height: a Box of the pile below would need memory, and `window` fails for none.
#[derive(Drop)]
pub enum Pile {
    Bare(Base),
    One(Window<Base>),
    Two(Window<Window<Base>>),
    Three(Window<Window<Window<Base>>>),
}
