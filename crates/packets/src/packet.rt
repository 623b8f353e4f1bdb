// The fourteen packets, as they are read and written.
ghost use Rattle.std.specs.Prelude.{◌≡◌};
ghost use Rattle.packets.specs.declared.packet.ReadError.TheVariants.{Bad};

use frame::field::BadField;
use topics::qos::Qos;

/// The six bytes that a CONNECT begins with: the protocol's name as a text.
pub const PROTOCOL_NAME: [u8; 6] = [0, 4, b'M', b'Q', b'T', b'T'];

/// The protocol level of MQTT 3.1.1.
pub const PROTOCOL_LEVEL: u8 = 4;

/// The most bytes of a PUBLISH's payload.
pub const MAX_PAYLOAD: usize = 256;

/// The most filters of a SUBSCRIBE or an UNSUBSCRIBE, and the most codes of a SUBACK.
pub const MAX_FILTERS: usize = 8;

/// A packet. Texts, filters, payload and codes are borrowed; a place is an index into the packet's bytes:
/// that of a text is the place of its two-byte length, that of a payload its first byte.
#[derive(Clone, Copy)]
pub enum Packet<'a> {
    Connect {
        client: &'a [u8],
        client_at: usize,
    },
    // A code stays a number here and in a SUBACK: a writer may be given any, and refuses those that are none.
    ConnAck {
        session_present: bool,
        code: u8,
    },
    Publish {
        dup: bool,
        qos: Qos,
        topic: &'a [u8],
        topic_at: usize,
        id: Option<u16>,
        payload: &'a [u8],
        payload_at: usize,
    },
    PubAck {
        id: u16,
    },
    PubRec {
        id: u16,
    },
    PubRel {
        id: u16,
    },
    PubComp {
        id: u16,
    },
    Subscribe {
        id: u16,
        filters: Filters<'a>,
    },
    SubAck {
        id: u16,
        codes: &'a [u8],
    },
    Unsubscribe {
        id: u16,
        filters: Filters<'a>,
    },
    UnsubAck {
        id: u16,
    },
    PingReq,
    PingResp,
    Disconnect,
}

/// The filters of a SUBSCRIBE (each with a QoS byte) or an UNSUBSCRIBE (without): the part of the packet
/// that they stand in, the place of that part, and how many they are.
// A part and a count, told one by one by `get`: reading allocates nothing.
#[derive(Clone, Copy)]
pub struct Filters<'a> {
    pub part: &'a [u8],
    pub place: usize,
    pub count: usize,
    pub with_qos: bool,
}

/// One filter, the place of its two-byte length, and the quality of service that a SUBSCRIBE asks for.
#[derive(Clone, Copy)]
pub struct Filter<'a> {
    pub bytes: &'a [u8],
    pub place: usize,
    pub qos: Option<Qos>,
}

/// Why bytes are no packet: a CONNECT of another protocol level, or the first bad field.
#[derive(Clone, Copy, PartialEq, Eq, Debug)]
pub enum ReadError {
    Level,
    Bad(BadField),
}

impl From<BadField> for ReadError {
    ghost from_gives = { λ bad e. e ≡ Bad bad };

    fn from(bad: BadField) -> ReadError {
        ReadError::Bad(bad)
    }
}
