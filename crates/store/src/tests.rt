// Kinds by number, keys, what is left, and the memory of one row.
use crate::ROW_BYTES;
use crate::budget::Budget;
use crate::key::Key;
use crate::kind::{Kind, Refusal, UnknownKind};
use crate::making::{MAX_ROWS, MakeError};
use crate::row::RowBuffer;
use crate::row::ops::check_row;
use std::test::Fail;

#[test]
fn kinds_have_numbers(rt: HostRuntime) {
    let message = Kind::try_from(1) == Ok(Kind::Message);
    let none = Kind::try_from(2) == Err(UnknownKind(2));
    let keys = Kind::Session.made_limit() + Kind::Message.made_limit();
    assert!(rt; message & none & (Kind::Session.number() == 0) & (keys == MAX_ROWS));
}

#[test]
fn keys_lie_in_one_line(rt: HostRuntime) {
    let slot = match Key::of(Kind::Message, 1023) {
        Ok(key) => key.slot(),
        Err(_) => 0,
    };
    let bad = Key::of(Kind::Session, 128) == Err(Refusal::Bad);
    assert!(rt; bad & (slot == 1151) & (Key::of(Kind::Session, 0) == Ok(Key::first())));
}

#[test]
fn a_budget_is_spent(rt: HostRuntime) -> Result<(), Fail> {
    assert!(rt; Budget::new(1153) == Err(MakeError::Bad));
    let Ok(mut left) = Budget::new(1) else {
        return Err(Fail::new("1 row"));
    };
    let gone = left.take(true) == Err(Refusal::Gone);
    left.writes = 3;
    let taken = (left.take(true) == Ok(())) & (left.take(true) == Err(Refusal::NoRoom));
    let spent = (left.take(false) == Ok(())) & (left.spend() == Ok(()));
    assert!(rt; gone & taken & spent & (left == Budget { free: 0, writes: 0 }));
    assert!(rt; left.spend() == Err(Refusal::Gone));
    Ok(())
}

#[test]
fn a_row_is_kept(rt: HostRuntime) -> Result<(), Fail> {
    let mut row = RowBuffer::new(rt.alloc())?;
    let mut buffer = [9u8; ROW_BYTES];
    let taken = row.write(b"abc") == Ok(());
    let read = row.read(&mut buffer) == Ok(3);
    let refused = row.read(&mut buffer[0..559]) == Err(Refusal::Bad);
    assert!(rt; taken & read & refused & (buffer[2] == b'c') & (buffer[3] == 9));
    row.clear();
    assert!(rt; row.is_empty() & (row.len() == 0));
    Ok(())
}

#[test]
fn a_long_row_is_refused(rt: HostRuntime) -> Result<(), Fail> {
    let mut row = RowBuffer::new(rt.alloc())?;
    let taken = row.write(&[1u8; 560]) == Ok(());
    let refused = row.write(&[1u8; 561]) == Err(Refusal::Bad);
    assert!(rt; taken & refused & (row.len() == 560));
    let checked = (check_row(b"a") == Ok(())) & (check_row(b"") == Err(Refusal::Bad));
    assert!(rt; checked & (check_row(&[1u8; 561]) == Err(Refusal::Bad)));
    Ok(())
}
