// What a journal answers, by example.
use journal::Journal;
use std::test::Fail;
use store::kind::{Kind, Refusal};
use store::making::{Made, MakeError};
use store::{ROW_BYTES, Store};

// One row has places for three changes: the fourth clears the dead ones first, and the row stays.
#[test]
fn a_full_journal_clears_dead_changes(rt: HostRuntime) -> Result<(), Fail> {
    let mut journal = Journal::new(rt.alloc(), 1)?;
    let mut buffer = [9u8; ROW_BYTES];
    journal.power(4);
    let a = journal.put(Kind::Session, 127, b"a");
    let b = journal.put(Kind::Session, 127, b"bc");
    let c = journal.put(Kind::Session, 127, b"def");
    assert!(rt; (a == Ok(())) & (b == Ok(())) & (c == Ok(())) & (journal.change_count() == 3));
    let d = journal.put(Kind::Session, 127, b"gh");
    let there = journal.load(Kind::Session, 127, &mut buffer);
    assert!(rt; (d == Ok(())) & (journal.change_count() == 2) & (journal.places() == 3));
    assert!(rt; (there == Ok(2)) & (buffer[0] == b'g') & (buffer[2] == 9));
    Ok(())
}

// Two rows have places for five changes: a live change is moved down and found there.
#[test]
fn live_changes_are_moved_down(rt: HostRuntime) -> Result<(), Fail> {
    let mut journal = Journal::new(rt.alloc(), 2)?;
    let mut buffer = [0u8; ROW_BYTES];
    journal.power(6);
    let a = journal.put(Kind::Session, 0, b"a");
    let b = journal.drop_row(Kind::Session, 0);
    let c = journal.put(Kind::Message, 1023, b"kept");
    let d = journal.put(Kind::Message, 5, b"d");
    let e = journal.drop_row(Kind::Message, 5);
    assert!(rt; (a == Ok(())) & (b == Ok(())) & (c == Ok(())) & (d == Ok(())) & (e == Ok(())));
    let f = journal.put(Kind::Session, 0, b"f");
    let kept = journal.load(Kind::Message, 1023, &mut buffer);
    assert!(rt; (f == Ok(())) & (kept == Ok(4)) & (buffer[0] == b'k'));
    assert!(rt; (journal.change_count() == 2) & (journal.free() == 0));
    Ok(())
}

#[test]
fn refusals_leave_the_changes(rt: HostRuntime) -> Result<(), Fail> {
    let mut journal = Journal::new(rt.alloc(), 0)?;
    let mut short = [0u8; 559];
    let bad = journal.put(Kind::Session, 128, b"a");
    let empty = journal.put(Kind::Session, 0, b"");
    let gone = journal.put(Kind::Session, 0, b"a");
    let done = journal.drop_row(Kind::Session, 0);
    let low = journal.load(Kind::Session, 0, &mut short);
    journal.power(1);
    let full = journal.put(Kind::Message, 1023, b"a");
    assert!(rt;
        (bad == Err(Refusal::Bad)) & (empty == Err(Refusal::Bad)) & (low == Err(Refusal::Bad))
    );
    assert!(rt; (gone == Err(Refusal::Gone)) & (done == Ok(())) & (full == Err(Refusal::NoRoom)));
    assert!(rt; journal.change_count() == 0);
    Ok(())
}

#[test]
fn too_many_rows_are_bad(rt: HostRuntime) -> Result<(), Fail> {
    match Journal::new(rt.alloc(), 1153) {
        Err(MakeError::Bad) => Ok(()),
        _ => Err(Fail::new("1,153 rows")),
    }
}
