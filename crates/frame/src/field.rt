// The fields of a packet, and a bad one with its place.
ghost use Rattle.std.specs.Prelude.{◌≡◌};
ghost use Rattle.frame.specs.Field.{field_number};

// What a reader judges, in the order of judging.
#[derive(Clone, Copy, PartialEq, Eq, Debug)]
pub enum Field {
    FirstByte = 1,
    RemainingLength = 2,
    ProtocolName = 3,
    Flags = 4,
    ClientIdentifier = 5,
    TopicName = 6,
    PacketIdentifier = 7,
    TopicFilter = 8,
    QosOrCode = 9,
    Payload = 10,
    End = 11,
}

impl Field {
    // 1 for the first byte to 11 for the packet's end.
    pub fn number(self) -> u8
        ensures answer { result ≡ field_number self }
    {
        self as u8
    }
}

// The first bad field of a packet, and the index of that field's first byte.
#[derive(Clone, Copy, PartialEq, Eq, Debug)]
pub struct BadField {
    pub field: Field,
    pub place: usize,
}
