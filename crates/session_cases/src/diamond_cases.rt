//! The diamond of four nodes with two workers that take turns, each turn worked by hand.

use crate::networks::{add_turn, diamond, new_rooms};
use flow_graph::FlowShard;
use gate_core::ScanScreen;
use gx_base::NoMemory;
use iterate::{Played, play};
use preflow_push::Discharge;
use rooms::Value;
use std::alloc::Global;
use std::test::Fail;
use traces::put_trace;

/// Worker 0 takes the node 2, and worker 1 the node 3. The nodes rise, and their excess is then sent to the sink.
const WHOLE: &str = "t 0 0 take 2 0 0 0
t 1 1 take 3 0 0 0
t 2 0 call 2 excess 2 0 0 0 -> 1 0 0 0
t 3 1 call 3 excess 3 0 0 0 -> 1 0 0 0
t 4 0 call 2 height 2 0 0 0 -> 0 0 0 0
t 5 1 call 3 height 3 0 0 0 -> 0 0 0 0
t 6 0 call 1 flow 1 0 0 0 -> 1 0 0 0
t 7 1 call 2 flow 2 0 0 0 -> 1 0 0 0
t 8 0 call 1 height 1 0 0 0 -> 4 0 0 0
t 9 1 call 1 height 1 0 0 0 -> 4 0 0 0
t 10 0 call 3 flow 3 0 0 0 -> 0 0 0 0
t 11 1 call 4 flow 4 0 0 0 -> 0 0 0 0
t 12 0 call 4 height 4 0 0 0 -> 0 0 0 0
t 13 1 call 4 height 4 0 0 0 -> 0 0 0 0
t 14 0 call 2 relabel 2 1 0 0 -> 0 0 0 0
t 15 1 call 3 relabel 3 1 0 0 -> 0 0 0 0
t 16 0 commit 0
t 17 1 commit 1
t 18 0 take 2 0 0 0
t 19 1 take 3 0 0 0
t 20 0 call 2 excess 2 0 0 0 -> 1 0 0 0
t 21 1 call 3 excess 3 0 0 0 -> 1 0 0 0
t 22 0 call 2 height 2 0 0 0 -> 1 0 0 0
t 23 1 call 3 height 3 0 0 0 -> 1 0 0 0
t 24 0 call 1 flow 1 0 0 0 -> 1 0 0 0
t 25 1 call 2 flow 2 0 0 0 -> 1 0 0 0
t 26 0 call 1 height 1 0 0 0 -> 4 0 0 0
t 27 1 call 1 height 1 0 0 0 -> 4 0 0 0
t 28 0 call 3 flow 3 0 0 0 -> 0 0 0 0
t 29 1 call 4 flow 4 0 0 0 -> 0 0 0 0
t 30 0 call 4 height 4 0 0 0 -> 0 0 0 0
t 31 1 call 4 height 4 0 0 0 -> 0 0 0 0
t 32 0 call 3 send 3 1 0 0 -> 0 0 0 0
t 33 1 call 4 send 4 1 0 0 -> 0 0 0 0
t 34 0 call 2 gain 2 -1 0 0 -> 0 0 0 0
t 35 1 call 3 gain 3 -1 0 0 -> 0 0 0 0
t 36 0 call 4 gain 4 1 0 0 -> 0 0 0 0
t 37 1 call 4 gain 4 1 0 0 -> 0 0 0 0
t 38 0 commit 2
t 39 1 commit 3
";

/// Cut off after six turns: the calls of worker 0 are taken back, and then those of worker 1.
const DRAINED: &str = "t 0 0 take 2 0 0 0
t 1 1 take 3 0 0 0
t 2 0 call 2 excess 2 0 0 0 -> 1 0 0 0
t 3 1 call 3 excess 3 0 0 0 -> 1 0 0 0
t 4 0 call 2 height 2 0 0 0 -> 0 0 0 0
t 5 1 call 3 height 3 0 0 0 -> 0 0 0 0
t 6 0 undo 2 height 2 0 0 0
t 7 0 undo 2 excess 2 0 0 0
t 8 1 undo 3 height 3 0 0 0
t 9 1 undo 3 excess 3 0 0 0
";

fn has_order(values: &[Value<FlowShard, ScanScreen>], nodes: [i64; 4]) -> bool {
    let Some(Value::Book(book)) = values.last() else {
        return false;
    };
    let commits = book.commits();
    let mut same = book.is_empty() && commits.len() == 4;
    for (commit, node) in commits.iter().zip(nodes) {
        same = same && commit.item.k0 == node;
    }
    same
}

/// The run of both workers, each in its turn, for so many turns.
fn played(alloc: Global, turns: u32) -> Result<Option<Played<FlowShard, ScanScreen>>, NoMemory> {
    let net = diamond(alloc)?;
    let op = Discharge::new(alloc, &net)?;
    let mut schedule = Vec::new(alloc);
    for turn in 0..turns {
        add_turn(&mut schedule, 2, turn % 2)?;
    }
    let rooms = new_rooms(alloc, &net)?;
    Ok(play(alloc, rooms, &op, 2, &schedule).ok())
}

/// Whether a run of so many turns has this trace, and this order.
fn goes_so(alloc: Global, turns: u32, trace: &str, nodes: [i64; 4]) -> Result<bool, NoMemory> {
    match played(alloc, turns)? {
        Some(played) => {
            let mut text = Vec::new(alloc);
            put_trace(&mut text, &played.trace, true, false)?;
            Ok(text.as_slice() == trace.as_bytes() && has_order(&played.values, nodes))
        }
        None => Ok(false),
    }
}

#[test]
fn diamond_two_workers(rt: HostRuntime) -> Result<(), Fail> {
    assert!(rt; goes_so(rt.alloc(), 100, WHOLE, [2, 3, 2, 3])?);
    Ok(())
}

#[test]
fn diamond_drain(rt: HostRuntime) -> Result<(), Fail> {
    assert!(rt; goes_so(rt.alloc(), 6, DRAINED, [2, 2, 3, 3])?);
    Ok(())
}
