// Replies that wait on a link.

/// The return codes of a SUBACK: the first `count` of the bytes.
// Counted: replies wait by value in a ring, and the broker's calls never allocate.
#[derive(Clone, Copy)]
pub struct Codes {
    pub bytes: [u8; 8],
    pub count: u8,
}

/// A packet that the broker owes a connected client, by value, so that it can wait in a ring.
#[derive(Clone, Copy)]
pub enum Reply {
    Accepted { session_present: bool },
    PubAck { id: u16 },
    PubRec { id: u16 },
    PubRel { id: u16 },
    PubComp { id: u16 },
    SubAck { id: u16, codes: Codes },
    UnsubAck { id: u16 },
    PingResp,
}
