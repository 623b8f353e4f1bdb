// Words read with memory to spare.
use crate::escape::escaped_bytes;
use crate::hex::hex_bytes;
use std::test::Fail;

#[test]
fn hexadecimal_words(rt: HostRuntime) -> Result<(), Fail> {
    assert_eq!(rt;
        hex_bytes(rt.alloc(), b"00fFA7")?,
        Some(vec![in rt.alloc(); 0x00, 0xff, 0xa7]?)
    );
    assert_eq!(rt; hex_bytes(rt.alloc(), b"-")?, Some(Vec::new(rt.alloc())));
    assert_eq!(rt; hex_bytes(rt.alloc(), b"00f")?, None);
    assert_eq!(rt; hex_bytes(rt.alloc(), b"0g")?, None);
    Ok(())
}

#[test]
fn escaped_words(rt: HostRuntime) -> Result<(), Fail> {
    assert_eq!(rt;
        escaped_bytes(rt.alloc(), b"a\\x20b")?,
        Some(vec![in rt.alloc(); b'a', b' ', b'b']?)
    );
    assert_eq!(rt;
        escaped_bytes(rt.alloc(), b"-")?,
        Some(Vec::new(rt.alloc()))
    );
    assert_eq!(rt;
        escaped_bytes(rt.alloc(), b"\\x2d")?,
        Some(vec![in rt.alloc(); b'-']?)
    );
    assert_eq!(rt; escaped_bytes(rt.alloc(), b"\\x61")?, None);
    assert_eq!(rt; escaped_bytes(rt.alloc(), b"a b")?, None);
    Ok(())
}
