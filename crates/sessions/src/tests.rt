// Session rows by example.
use crate::view::SessionRow;
use std::test::Fail;

// Client "p7" with "a/#" at 2 and "b" at 0.
const ROW: [u8; 12] = [2, b'p', b'7', 2, 2, 3, b'a', b'/', b'#', 0, 1, b'b'];

// No bytes; an empty identifier; a dash in it; no number; nine filters; quality of service 3; a filter twice; a byte left over.
const BAD: [&[u8]; 8] = [
    &[],
    &[0, 0],
    &[1, b'-', 0],
    &[1, b'p'],
    &[1, b'p', 9],
    &[1, b'p', 1, 3, 1, b'a'],
    &[1, b'p', 2, 0, 1, b'a', 1, 1, b'a'],
    &[1, b'p', 0, 0],
];

#[test]
fn read_and_written(rt: HostRuntime) -> Result<(), Fail> {
    let row = SessionRow::read(&ROW).ok_or("against layout")?;
    assert!(rt; row.client == b"p7".as_slice());
    assert_eq!(rt; row.filters.len(), 2);
    let second = row.filters.get(1).ok_or("no second filter")?;
    assert!(rt; second.filter == b"b".as_slice());
    assert!(rt; row.filters.get(2).is_none());
    let mut out = [0u8; 12];
    assert!(rt; row.write(&mut out).is_ok());
    assert!(rt; out == ROW);
    let mut small = [0u8; 11];
    assert!(rt; row.write(&mut small).is_err());
    Ok(())
}

#[test]
fn refused(rt: HostRuntime) {
    for bytes in BAD {
        assert!(rt; SessionRow::read(bytes).is_none());
    }
}
