//! What no clause says: that calls succeed, and values worked by hand. The functions that take any
//! object are proved from the clauses of `SeqType` alone.
ghost use Rattle.std.specs.Prelude.{◌≡◌, IfOk, OnOk};
ghost use Rattle.gx_base.specs.Steps.{next_state, reply_to};

use flow_graph::{EXCESS, FLOW, FlowShard, GAIN, HEIGHT, RELABEL, SEND};
use gx_base::{Call, Choice, Kind, Made, NoMemory, Reply, Seen, SeqType, Table, eval};
use std::test::Fail;

fn call(method: u32, a: i64, b: i64) -> Call {
    Call::new(method, a, b, 0, 0)
}

fn reply(p: i64) -> Reply {
    Reply::new(p, 0, 0, 0)
}

/// Does a call, takes it back and does it again.
fn done_again<T: SeqType>(object: &mut T, call: Call) -> Result<Reply, NoMemory>
    ensures reply { IfOk result (λ reply. reply ≡ reply_to (T.state object.old) call) }
    ensures state { OnOk result (T.state object.new ≡ next_state (T.state object.old) call) }
{
    let reply = object.apply(call)?;
    object.undo(call, reply);
    object.redo(call, reply);
    Ok(reply)
}

/// Whether a call that is done, taken back and done again replies this number.
fn replies<T: SeqType>(object: &mut T, call: Call, number: i64) -> Result<bool, NoMemory> {
    Ok(done_again(object, call)? == reply(number))
}

/// Takes back a call, where it has room.
fn taken_back<T: SeqType>(object: &mut T, call: Call, reply: Reply) -> bool {
    let roomed = object.roomed(call, reply);
    if roomed {
        object.undo(call, reply);
    }
    roomed
}

fn needs<T: Send + Drop>(_value: &T) {}

#[test]
fn a_gain_is_taken_back_alone(rt: HostRuntime) -> Result<(), Fail> {
    let mut shard = FlowShard::new(rt.alloc());
    needs(&shard);
    for (method, number, answer) in [(GAIN, 5, 0), (GAIN, 7, 0), (EXCESS, 0, 12)] {
        assert!(rt; replies(&mut shard, call(method, 3, number), answer)?);
    }
    assert!(rt; taken_back(&mut shard, call(GAIN, 3, 5), reply(0)));
    assert_eq!(rt; shard.excess(3), 7);
    assert_eq!(rt; shard.height(3), 0);
    assert_eq!(rt; shard.flow(3), 0);
    Ok(())
}

#[test]
fn a_relabel_is_taken_back_to_the_old_height(rt: HostRuntime) -> Result<(), Fail> {
    let mut shard = FlowShard::new(rt.alloc());
    for (method, number, answer) in [(RELABEL, 2, 0), (RELABEL, 6, 2), (HEIGHT, 0, 6)] {
        assert!(rt; replies(&mut shard, call(method, 4, number), answer)?);
    }
    assert!(rt; taken_back(&mut shard, call(RELABEL, 4, 6), reply(2)));
    assert_eq!(rt; shard.height(4), 2);
    Ok(())
}

#[test]
fn flows_wrap_and_other_kinds_do_nothing(rt: HostRuntime) -> Result<(), Fail> {
    let mut shard = FlowShard::new(rt.alloc());
    // 9 is a method of cells.
    for (method, number, answer) in [
        (SEND, i64::MAX, 0),
        (SEND, 1, 0),
        (FLOW, 0, i64::MIN),
        (9, 5, 0),
    ] {
        assert!(rt; replies(&mut shard, call(method, 4, number), answer)?);
    }
    assert_eq!(rt; shard.height(4), 0);
    assert_eq!(rt; shard.excess(4), 0);
    assert_eq!(rt; shard.observe(4), 0);
    Ok(())
}

/// Whether a row that is written 64 times over, and taken back but for the first, is tidied to one live row.
fn is_tidied(shard: &mut FlowShard, method: u32, reads: u32) -> Result<bool, NoMemory> {
    for key in 0..64 {
        shard.apply(call(method, key, 5))?;
    }
    for key in 1..64 {
        taken_back(shard, call(method, key, 5), reply(0));
    }
    shard.tidy()?;
    let roomed = shard.roomed(call(method, 0, 5), reply(0));
    let dropped = !shard.roomed(call(method, 1, 5), reply(0));
    Ok(
        roomed
            && dropped
            && replies(shard, call(reads, 0, 0), 5)?
            && replies(shard, call(reads, 1, 0), 0)?,
    )
}

#[test]
fn tidy_keeps_the_numbers_and_drops_dead_rows(rt: HostRuntime) -> Result<(), Fail> {
    for (method, reads) in [(RELABEL, HEIGHT), (GAIN, EXCESS), (SEND, FLOW)] {
        let mut shard = FlowShard::new(rt.alloc());
        assert!(rt; is_tidied(&mut shard, method, reads)?);
    }
    Ok(())
}

/// Two calls as (method, a, b, p), and whether their row holds in the precise, the simple, the rw and the
/// global table.
const ROWS: [((u32, i64, i64, i64), (u32, i64, i64, i64), [bool; 4]); 11] = [
    ((GAIN, 3, 5, 0), (GAIN, 3, 7, 0), [true, true, false, false]),
    ((EXCESS, 3, 0, 12), (GAIN, 3, 7, 0), [false; 4]),
    (
        (EXCESS, 3, 0, 12),
        (GAIN, 3, 0, 0),
        [true, false, false, false],
    ),
    (
        (SEND, 3, 0, 0),
        (FLOW, 3, 0, 12),
        [true, false, false, false],
    ),
    ((SEND, 3, 1, 0), (FLOW, 4, 0, 12), [true, true, true, false]),
    (
        (HEIGHT, 3, 0, 2),
        (RELABEL, 3, 2, 2),
        [true, false, false, false],
    ),
    (
        (RELABEL, 3, 2, 2),
        (HEIGHT, 3, 0, 2),
        [true, false, false, false],
    ),
    ((RELABEL, 3, 2, 1), (RELABEL, 3, 2, 2), [false; 4]),
    (
        (RELABEL, 3, 2, 2),
        (RELABEL, 3, 2, 2),
        [true, false, false, false],
    ),
    (
        (RELABEL, 3, 2, 1),
        (GAIN, 3, 5, 0),
        [true, true, true, false],
    ),
    ((GAIN, 3, 5, 0), (9, 4, 5, 0), [false; 4]),
];

const UNSEEN: Seen = Seen {
    first: 0,
    second: 0,
};

fn made(values: (u32, i64, i64, i64)) -> Made {
    Made {
        call: call(values.0, values.1, values.2),
        reply: reply(values.3),
    }
}

fn holds(table: &Table, first: &Made, second: &Made) -> bool {
    let row = table.row(first.call.method, second.call.method);
    eval(row, first, second, UNSEEN)
}

#[test]
fn shipped_rows_hold_where_they_should(rt: HostRuntime) -> Result<(), Fail> {
    let alloc = rt.alloc();
    let precise = FlowShard::shipped(alloc, Kind::Flow, Choice::Precise)?;
    let simple = FlowShard::shipped(alloc, Kind::Flow, Choice::Simple)?;
    let rw = FlowShard::shipped(alloc, Kind::Flow, Choice::Rw)?;
    let global = FlowShard::shipped(alloc, Kind::Flow, Choice::Global)?;
    let cells = FlowShard::shipped(alloc, Kind::Cells, Choice::Precise)?;
    for (first, second, want) in ROWS {
        let first = made(first);
        let second = made(second);
        for (table, want) in [&precise, &simple, &rw, &global].into_iter().zip(want) {
            assert!(rt; holds(table, &first, &second) == want);
        }
        assert!(rt; !holds(&cells, &first, &second));
    }
    Ok(())
}
