//! Lines of traces, written out by hand.

use gate_core::{Entry, Told};
use gx_base::{Call, Item, Reply, Seen};
use iterate::{Event, Turn};
use std::alloc::Global;
use std::test::Fail;
use traces::put_trace;

const LOOKED: Reply = Reply {
    p: 1,
    q: 0,
    r: 0,
    s: 0,
};

/// The conflict of two workers on the diamond under a table in which no two calls may be swapped.
const CONFLICT: Told = Told {
    held: Entry {
        worker: 0,
        iter: 0,
        item: Item {
            k0: 2,
            k1: 0,
            k2: 0,
            k3: 0,
        },
        call: Call {
            method: 18,
            a: 2,
            b: 0,
            c: 0,
            d: 0,
        },
        reply: LOOKED,
        seen: 0,
        done: None,
    },
    asked: Call {
        method: 20,
        a: 2,
        b: 0,
        c: 0,
        d: 0,
    },
    would: LOOKED,
    seen: Seen {
        first: 0,
        second: 0,
    },
};

const fn turn(number: u64, worker: u32, event: Event) -> Turn {
    Turn {
        number,
        worker,
        event,
    }
}

/// Whether a trace with a turn of each sort has these lines after a text.
fn has_lines(alloc: Global, lines: bool, told: bool, wanted: &str) -> Result<bool, Fail> {
    let trace = [
        turn(
            5,
            63,
            Event::Take {
                item: Item::new(-1, 2, -3, i64::MIN),
            },
        ),
        turn(
            6,
            0,
            Event::Call {
                room: 1,
                call: Call::new(35, 1, -2, 3, 4),
                reply: Reply::new(-1, 0, i64::MAX, 7),
            },
        ),
        turn(
            7,
            1,
            Event::Conflict {
                room: 2,
                told: CONFLICT,
            },
        ),
        turn(
            8,
            0,
            Event::Undo {
                room: 2,
                call: Call::new(16, 2, 0, 0, 0),
            },
        ),
        turn(9, 1, Event::Commit { number: u64::MAX }),
        turn(10, 1, Event::Wait),
        turn(11, 1, Event::Drop),
        turn(12, 1, Event::Idle),
        turn(u64::MAX, u32::MAX, Event::Busy),
    ];
    let mut text = b"s 2\n".to_vec(alloc)?;
    put_trace(&mut text, &trace, lines, told)?;
    Ok(text.as_slice() == wanted.as_bytes())
}

#[test]
fn turns_have_lines(rt: HostRuntime) -> Result<(), Fail> {
    let wanted = "s 2
t 5 63 take -1 2 -3 -9223372036854775808
t 6 0 call 1 nearest 1 -2 3 4 -> -1 0 9223372036854775807 7
t 7 1 conflict 2 flow 2 0 0 0
t 8 0 undo 2 height 2 0 0 0
t 9 1 commit 18446744073709551615
t 10 1 wait
t 11 1 drop
t 12 1 idle
t 18446744073709551615 4294967295 busy
";
    assert!(rt; has_lines(rt.alloc(), true, false, wanted)?);
    Ok(())
}

#[test]
fn conflicts_are_told(rt: HostRuntime) -> Result<(), Fail> {
    let alloc = rt.alloc();
    let told = "u 7 0 0 excess 2 0 0 0 -> 1 0 0 0 would 1 0 0 0\n";
    assert!(rt;
        has_lines(
            alloc,
            false,
            true,
            format!(in alloc; "s 2\n{told}")?.as_str()
        )?
    );
    assert!(rt; has_lines(alloc, false, false, "s 2\n")?);
    let both = "s 2
t 5 63 take -1 2 -3 -9223372036854775808
t 6 0 call 1 nearest 1 -2 3 4 -> -1 0 9223372036854775807 7
t 7 1 conflict 2 flow 2 0 0 0
u 7 0 0 excess 2 0 0 0 -> 1 0 0 0 would 1 0 0 0
t 8 0 undo 2 height 2 0 0 0
t 9 1 commit 18446744073709551615
t 10 1 wait
t 11 1 drop
t 12 1 idle
t 18446744073709551615 4294967295 busy
";
    assert!(rt; has_lines(alloc, true, true, both)?);
    Ok(())
}
