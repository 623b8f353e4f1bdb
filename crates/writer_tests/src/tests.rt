// Packets written again: in the shortest form, with RETAIN and keep-alive 0, and the rest of the buffer as it was.
use packets::reader::read;
use writer::out::WriteError;
use writer::write::write;

// How many bytes were written, or why none; nothing where the bytes are no packet.
fn again(bytes: &[u8], out: &mut [u8]) -> Option<Result<usize, WriteError>> {
    let packet = read(bytes).ok()?;
    Some(write(&packet, out))
}

#[test]
fn publish_is_written(rt: HostRuntime) {
    let mut out = [9u8; 12];
    let bytes = [0x3d, 0x87, 0x00, 0, 1, b'a', 0, 7, b'h', b'i'];
    assert!(rt; again(&bytes, &mut out) == Some(Ok(9)));
    assert!(rt; out == [0x3c, 7, 0, 1, b'a', 0, 7, b'h', b'i', 9, 9, 9]);
}

#[test]
fn connect_is_written(rt: HostRuntime) {
    let mut out = [9u8; 16];
    let bytes = [
        0x10, 13, 0, 4, b'M', b'Q', b'T', b'T', 4, 0, 1, 44, 0, 1, b'P',
    ];
    assert!(rt; again(&bytes, &mut out) == Some(Ok(15)));
    assert!(rt;
        out == [
            0x10, 13, 0, 4, b'M', b'Q', b'T', b'T', 4, 0, 0, 0, 0, 1, b'P', 9,
        ]
    );
}

#[test]
fn short_buffers_stay(rt: HostRuntime) {
    let mut out = [9u8; 8];
    let bytes = [0x82, 8, 0, 10, 0, 3, b'a', b'/', b'+', 1];
    assert!(rt; again(&bytes, &mut out) == Some(Err(WriteError::Short { needed: 10 })));
    assert!(rt; out == [9u8; 8]);
}
