// Message rows by example.
use crate::parts::State;
use crate::view::MessageRow;
use std::test::Fail;

// Rank 300, origin session 3 with identifier 9, session 0 waiting at 0, session 9 sent at 2, "hi" on "a/b".
const ROW: [u8; 19] = [
    0, 0, 1, 44, 3, 0, 9, 0, 0, 2, 1, 0x01, 0x22, 3, b'a', b'/', b'b', b'h', b'i',
];

// Rank 0; session 32; neither origin nor target; a target byte that quality of service 0 does not know; a topic with a wildcard.
const BAD: [&[u8]; 5] = [
    &[0, 0, 0, 0, 3, 0, 9, 0, 0, 0, 0, 1, b'a'],
    &[0, 0, 0, 1, 32, 0, 9, 0, 0, 0, 0, 1, b'a'],
    &[0, 0, 0, 1, 255, 0, 0, 0, 0, 0, 0, 1, b'a'],
    &[0, 0, 0, 1, 255, 0, 0, 0, 0, 0, 1, 0x02, 1, b'a'],
    &[0, 0, 0, 1, 3, 0, 9, 0, 0, 0, 0, 1, b'#'],
];

#[test]
fn read(rt: HostRuntime) -> Result<(), Fail> {
    let row = MessageRow::read(&ROW).ok_or("against layout")?;
    assert_eq!(rt; row.rank, 300);
    assert!(rt; row.topic == b"a/b".as_slice());
    assert!(rt; row.payload == b"hi".as_slice());
    let origin = row.origin.ok_or("no origin")?;
    assert_eq!(rt; origin.identifier, 9);
    let target = row.targets.get(9).ok_or("no target")?;
    assert_eq!(rt; target.state, State::Sent);
    assert!(rt; row.targets.get(1).is_none());
    Ok(())
}

#[test]
fn refused(rt: HostRuntime) {
    for bytes in BAD {
        assert!(rt; MessageRow::read(bytes).is_none());
    }
}
