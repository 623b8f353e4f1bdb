// Whether the rows of a store are those of a broker.
#![tactic(auto)]

use store::kind::Kind;

/// Why a store's rows are not those of a broker.
#[derive(Clone, Copy, Debug, PartialEq, Eq)]
pub enum Refusal {
    /// Fewer than 32 numbers for sessions or 256 for messages.
    TooSmall,
    /// The first row, sessions before messages, that is against its layout, names a missing session or repeats what an earlier row has.
    BadRow { kind: Kind, number: u32 },
}

/// What was found of a store's rows: those of a broker with so many sessions, or refused.
pub type Verdict = Result<u32, Refusal>;
