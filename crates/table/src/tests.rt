// What a table answers, by example.
use crate::Table;
use std::test::Fail;
use store::change::{Change, apply};
use store::kind::{Kind, Refusal};
use store::making::{Made, MakeError};
use store::{ROW_BYTES, Store};

#[test]
fn a_row_put_is_loaded(rt: HostRuntime) -> Result<(), Fail> {
    let mut table = Table::new(rt.alloc(), 1)?;
    let mut buffer = [9u8; ROW_BYTES];
    table.power(1);
    let put = table.put(Kind::Message, 1023, b"abc");
    let there = table.load(Kind::Message, 1023, &mut buffer);
    let absent = table.load(Kind::Session, 127, &mut buffer);
    assert!(rt; (put == Ok(())) & (there == Ok(3)) & (absent == Ok(0)));
    assert!(rt; (buffer[2] == b'c') & (buffer[3] == 9) & (table.free() == 0));
    Ok(())
}

#[test]
fn refusals_have_an_order(rt: HostRuntime) -> Result<(), Fail> {
    let mut table = Table::new(rt.alloc(), 0)?;
    let bad = table.put(Kind::Session, 128, b"a");
    let gone = table.put(Kind::Session, 127, b"a");
    let done = table.drop_row(Kind::Session, 127);
    table.power(1);
    let full = table.put(Kind::Session, 127, b"a");
    assert!(rt; (bad == Err(Refusal::Bad)) & (gone == Err(Refusal::Gone)));
    assert!(rt; (done == Ok(())) & (full == Err(Refusal::NoRoom)));
    Ok(())
}

#[test]
fn too_many_rows_are_bad(rt: HostRuntime) -> Result<(), Fail> {
    match Table::new(rt.alloc(), 1153) {
        Err(MakeError::Bad) => Ok(()),
        _ => Err(Fail::new("1,153 rows")),
    }
}

#[test]
fn a_lent_table_takes_changes(rt: HostRuntime) -> Result<(), Fail> {
    let mut table = Table::new(rt.alloc(), 1)?;
    table.power(1);
    let put = Change::Put {
        kind: Kind::Session,
        number: 3,
        row: b"abc".to_vec(rt.alloc())?,
    };
    let drop = Change::Remove {
        kind: Kind::Session,
        number: 3,
    };
    let mut lent = &mut table;
    let outcomes = apply(rt.alloc(), &mut lent, &[put, drop])?;
    assert!(rt; outcomes.as_slice() == [Ok(()), Err(Refusal::Gone)].as_slice());
    assert!(rt; table.free() == 0);
    Ok(())
}
