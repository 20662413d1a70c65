//! Gates over flow shards under the precise table, with values worked by hand.
use flow_graph::{EXCESS, FlowShard, GAIN, HEIGHT, RELABEL};
use gate_core::laws::shipped_tables_serve_gates;
use gate_core::{Entry, Gate, GateRefuse, ScanScreen, Told};
use gx_base::{Call, Choice, Item, Kind, NoMemory, Reply, Seen, SeqType};
use kind_tables::laws::tables_below_shipped_ones_are_not_general;
use std::alloc::Global;
use std::test::Fail;

const ITEM: Item = Item {
    k0: 0,
    k1: 0,
    k2: 0,
    k3: 0,
};

/// A gate on an empty shard. The plain scan can tell the conflicts of every table that flow ships.
fn precise_gate(alloc: Global) -> Result<Gate<FlowShard, ScanScreen>, NoMemory> {
    let table = FlowShard::shipped(alloc, Kind::Flow, Choice::Precise)?;
    shipped_tables_serve_gates::<FlowShard>();
    tables_below_shipped_ones_are_not_general();
    let object = FlowShard::new(alloc);
    Ok(Gate::new(alloc, object, Kind::Flow, table, ScanScreen::new()))
}

/// What is told of a call that replies `would` beside an entry of worker 0 that replied `replied`.
fn told(held: Call, replied: i64, asked: Call, would: i64) -> Told {
    Told {
        held: Entry {
            worker: 0,
            iter: 0,
            item: ITEM,
            call: held,
            reply: Reply::new(replied, 0, 0, 0),
            seen: 0,
            done: None,
        },
        asked,
        would: Reply::new(would, 0, 0, 0),
        seen: Seen {
            first: 0,
            second: 0,
        },
    }
}

/// Whether a call of an iteration is let in and replies so.
fn replies(
    gate: &mut Gate<FlowShard, ScanScreen>,
    worker: u32,
    iter: u64,
    asked: Call,
    value: i64,
) -> bool {
    gate.call(worker, iter, ITEM, asked) == Ok(Reply::new(value, 0, 0, 0))
}

/// Whether a call of a worker's first iteration is refused so.
fn refuses(
    gate: &mut Gate<FlowShard, ScanScreen>,
    worker: u32,
    asked: Call,
    refuse: GateRefuse,
) -> bool {
    gate.call(worker, 0, ITEM, asked) == Err(refuse)
}

/// Whether this call with this reply is the last one of a worker's first iteration, which is taken back.
fn undoes(gate: &mut Gate<FlowShard, ScanScreen>, worker: u32, call: Call, value: i64) -> bool {
    gate.undo_last(worker, 0) == Some((call, Reply::new(value, 0, 0, 0)))
}

fn release_as_first(gate: &mut Gate<FlowShard, ScanScreen>, worker: u32) -> bool {
    let rises = gate.mark() == 0;
    if rises {
        gate.release(worker, 0, 0);
    }
    rises
}

#[test]
fn gate_excess_gain(rt: HostRuntime) -> Result<(), Fail> {
    let mut gate = precise_gate(rt.alloc())?;
    assert!(rt; replies(&mut gate, 0, 0, Call::new(EXCESS, 4, 0, 0, 0), 0));
    let refuse = GateRefuse::Conflict(told(
        Call::new(EXCESS, 4, 0, 0, 0),
        0,
        Call::new(GAIN, 4, 1, 0, 0),
        0,
    ));
    assert!(rt; refuses(&mut gate, 1, Call::new(GAIN, 4, 1, 0, 0), refuse));
    assert!(rt; replies(&mut gate, 1, 0, Call::new(GAIN, 4, 0, 0, 0), 0));
    Ok(())
}

/// Whether so many entries are uncommitted and so many committed, and node 3 has this excess.
fn stands_so(gate: &Gate<FlowShard, ScanScreen>, live: usize, done: usize, excess: i64) -> bool {
    gate.live().len() == live && gate.done().len() == done && gate.object().excess(3) == excess
}

/// Whether all committed entries are those of worker 1, and the first commit's.
fn are_of_the_first(gate: &Gate<FlowShard, ScanScreen>) -> bool {
    gate.mark() == 1
        && gate
            .done()
            .iter()
            .all(|entry| entry.done == Some(0) && entry.worker == 1)
}

#[test]
fn gate_gain_undo(rt: HostRuntime) -> Result<(), Fail> {
    let mut gate = precise_gate(rt.alloc())?;
    let five = Call::new(GAIN, 3, 5, 0, 0);
    assert!(rt; replies(&mut gate, 0, 0, five, 0));
    assert!(rt; replies(&mut gate, 1, 0, Call::new(GAIN, 3, 7, 0, 0), 0));
    assert!(rt; stands_so(&gate, 2, 0, 12));
    assert!(rt; undoes(&mut gate, 0, five, 0));
    assert!(rt; stands_so(&gate, 1, 0, 7));
    assert!(rt; gate.undo_last(0, 0).is_none());
    assert!(rt; release_as_first(&mut gate, 1));
    assert!(rt; stands_so(&gate, 0, 1, 7) && are_of_the_first(&gate));
    Ok(())
}

#[test]
fn gate_relabel_undo(rt: HostRuntime) -> Result<(), Fail> {
    let mut gate = precise_gate(rt.alloc())?;
    assert!(rt; replies(&mut gate, 0, 0, Call::new(RELABEL, 4, 2, 0, 0), 0));
    let refuse = GateRefuse::Conflict(told(
        Call::new(RELABEL, 4, 2, 0, 0),
        0,
        Call::new(HEIGHT, 4, 0, 0, 0),
        2,
    ));
    assert!(rt; refuses(&mut gate, 1, Call::new(HEIGHT, 4, 0, 0, 0), refuse));
    assert!(rt; replies(&mut gate, 0, 0, Call::new(HEIGHT, 4, 0, 0, 0), 2));
    assert!(rt; undoes(&mut gate, 0, Call::new(HEIGHT, 4, 0, 0, 0), 2));
    assert!(rt; undoes(&mut gate, 0, Call::new(RELABEL, 4, 2, 0, 0), 0));
    assert!(rt; gate.undo_last(0, 0).is_none());
    assert_eq!(rt; gate.object().height(4), 0);
    Ok(())
}

/// Whether 64 calls were let in, each on a node of its own, and taken back: so many dead rows are dropped at once.
fn leaves_dead_rows(gate: &mut Gate<FlowShard, ScanScreen>) -> bool {
    for node in 10..74 {
        let gain = Call::new(GAIN, node, 5, 0, 0);
        if !replies(gate, 0, 0, gain, 0) || !undoes(gate, 0, gain, 0) {
            return false;
        }
    }
    true
}

#[test]
fn a_gate_without_uncommitted_entries_tidies_its_object(rt: HostRuntime) -> Result<(), Fail> {
    let mut gate = precise_gate(rt.alloc())?;
    let gain = Call::new(GAIN, 10, 5, 0, 0);
    assert!(rt; replies(&mut gate, 1, 0, Call::new(EXCESS, 7, 0, 0, 0), 0));
    assert!(rt; leaves_dead_rows(&mut gate));
    // The rows are dead now, and stay while the entry of worker 1 may still be undone.
    assert!(rt; replies(&mut gate, 0, 0, Call::new(EXCESS, 9, 0, 0, 0), 0));
    assert!(rt; gate.object().roomed(gain, Reply::new(0, 0, 0, 0)));
    assert!(rt; undoes(&mut gate, 0, Call::new(EXCESS, 9, 0, 0, 0), 0));
    assert!(rt; undoes(&mut gate, 1, Call::new(EXCESS, 7, 0, 0, 0), 0));
    assert!(rt; replies(&mut gate, 0, 1, Call::new(EXCESS, 9, 0, 0, 0), 0));
    assert!(rt; !gate.object().roomed(gain, Reply::new(0, 0, 0, 0)));
    Ok(())
}
