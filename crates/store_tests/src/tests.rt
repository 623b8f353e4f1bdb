// Windows on windows on a table.
use std::test::Fail;
use store::change::Change;
use store::kind::{Kind, Refusal};
use store::making::Made;
use store::{ROW_BYTES, Store};
use table::Table;
use window::Window;
use window::span::{Span, Spans};
use window::through::apply_through;

// The same run of numbers for both kinds.
fn both(base: u32, width: u32) -> Spans {
    Spans {
        sessions: Span { base, width },
        messages: Span { base, width },
    }
}

#[test]
fn three_windows_add_their_bases(rt: HostRuntime) -> Result<(), Fail> {
    let mut table = Table::new(rt.alloc(), 4)?;
    table.power(1);
    let Ok(low) = Window::new(table, both(10, 100)) else {
        return Err(Fail::new("10 to 109"));
    };
    let Ok(middle) = Window::new(low, both(20, 50)) else {
        return Err(Fail::new("30 to 79"));
    };
    let Ok(mut high) = Window::new(middle, both(5, 3)) else {
        return Err(Fail::new("35 to 37"));
    };
    let past = high.put(Kind::Session, 3, b"x");
    let put = high.put(Kind::Session, 2, b"abc");
    assert!(rt; (past == Err(Refusal::Bad)) & (put == Ok(())) & (high.limit(Kind::Message) == 3));
    let table = high.into_inner().into_inner().into_inner();
    let mut buffer = [0u8; ROW_BYTES];
    let there = table.load(Kind::Session, 37, &mut buffer);
    assert!(rt; (there == Ok(3)) & (buffer[0] == b'a') & (table.free() == 3));
    Ok(())
}

#[test]
fn a_window_past_the_limits_is_refused(rt: HostRuntime) -> Result<(), Fail> {
    let table = Table::new(rt.alloc(), 4)?;
    match Window::new(table, both(100, 29)) {
        Ok(_) => Err(Fail::new("sessions 100 to 128")),
        Err(beyond) => {
            assert!(rt; (beyond.number() == 13) & (beyond.store.free() == 4));
            Ok(())
        },
    }
}

#[test]
fn windows_side_by_side_share_the_free_rows(rt: HostRuntime) -> Result<(), Fail> {
    let mut table = Table::new(rt.alloc(), 1)?;
    table.power(9);
    let put = Change::Put {
        kind: Kind::Message,
        number: 0,
        row: b"a".to_vec(rt.alloc())?,
    };
    let outcomes = apply_through(rt.alloc(), &mut table, both(0, 8), &[put])?;
    let Ok(mut right) = Window::new(&mut table, both(8, 0)) else {
        return Err(Fail::new("no number at all"));
    };
    let none = right.put(Kind::Message, 0, b"a");
    assert!(rt;
        (outcomes.as_slice() == [Ok(())].as_slice())
            & (none == Err(Refusal::Bad))
            & (right.free() == 0)
    );
    Ok(())
}
