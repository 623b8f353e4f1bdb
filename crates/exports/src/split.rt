// Telling a packet's parts, for a caller in another language.
ghost use Rattle.std.specs.Prelude.{◌≡◌};
ghost use Rattle.frame.specs.Parts.{parts_in};
ghost use Rattle.exports.specs.Split.{outcome};

use frame::parts::split_packet;

// The type's number, the flags, and the body's place and length; or type 0, and the bad field's number and place.
#[repr(C)]
#[derive(Clone, Copy, Default)]
pub struct SplitOutcome {
    pub packet_type: u8,
    pub flags: u8,
    pub field: u8,
    pub place: usize,
    pub length: usize,
}

// Tells a whole packet's parts or its bad field.
#[unsafe(no_mangle)]
pub extern "C" fn merukpa_split(bytes: &[u8]) -> SplitOutcome
    ensures answer { result ≡ outcome (parts_in bytes.now) }
{
    match split_packet(bytes) {
        Ok(parts) => SplitOutcome {
            packet_type: parts.packet_type.number(),
            flags: parts.flags,
            place: parts.place,
            length: parts.body.len(),
            ..SplitOutcome::default()
        },
        Err(bad) => SplitOutcome {
            field: bad.field.number(),
            place: bad.place,
            ..SplitOutcome::default()
        },
    }
}
