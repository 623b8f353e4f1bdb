// The parts of a message row.
use topics::qos::Qos;

/// How far the delivery to a target has come.
#[derive(Clone, Copy, Debug, PartialEq, Eq)]
pub enum State {
    Waiting = 1,
    Sent = 2,
    Released = 3,
}

/// A number that no state has.
// A type of its own, as each enum has: an error tells what had no such number, a state here and no quality of service.
#[derive(Clone, Copy, Debug, PartialEq, Eq)]
pub struct UnknownState(pub u8);

/// What a session is owed: with which quality of service, and how far that has come.
#[derive(Clone, Copy)]
pub struct Target {
    pub qos: Qos,
    pub state: State,
}

/// A byte that stands for no target.
// A type of its own, beside `UnknownState`: here the whole byte is told.
#[derive(Clone, Copy, Debug, PartialEq, Eq)]
pub struct UnknownTarget(pub u8);

/// Where a message came from while its publisher may still repeat it: session and packet identifier.
#[derive(Clone, Copy)]
pub struct Origin {
    pub session: u8,
    pub identifier: u16,
}
