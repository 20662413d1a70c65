//! A network of four nodes, worked by hand.

use commit_book::{Commit, Operator};
use flow_graph::{EXCESS, FLOW, FlowShard, GAIN, HEIGHT, RELABEL, SEND};
use gx_base::{Act, Call, Item, NoMemory, Reply, SeqType};
use preflow_push::{Arc, Discharge, Network, report, start};
use std::alloc::Global;
use std::test::Fail;

fn flow_call(method: u32, number: i64, amount: i64) -> Call {
    Call::new(method, number, amount, 0, 0)
}

fn node_item(node: i64) -> Item {
    Item::new(node, 0, 0, 0)
}

/// From 1 to 4: arcs 1 and 2 leave the source, arc 5 joins the nodes between.
fn four_nodes(alloc: Global) -> Result<Network, NoMemory> {
    let ends = [(1, 2, 3), (1, 3, 2), (2, 4, 2), (3, 4, 3), (2, 3, 5)];
    let mut arcs = Vec::new(alloc);
    for (from, to, cap) in ends {
        arcs.push(Arc { from, to, cap })?;
    }
    Ok(Network {
        nodes: 4,
        source: 1,
        sink: 4,
        arcs,
    })
}

/// The act of a call, and what the test lets it reply.
fn asked(room: u32, method: u32, number: i64, amount: i64, value: i64) -> (Act, Option<Reply>) {
    let call = flow_call(method, number, amount);
    (Act::Call { room, call }, Some(Reply::new(value, 0, 0, 0)))
}

fn pushed(node: i64) -> (Act, Option<Reply>) {
    (Act::Push(node_item(node)), None)
}

/// Whether the body of an item makes these acts, and then comes to its end.
fn follows(operator: &Discharge, item: Item, acts: &[(Act, Option<Reply>)]) -> bool {
    let mut stage = operator.begin(item);
    let mut last = None;
    for (act, reply) in acts {
        if operator.next(&mut stage, last) != *act {
            return false;
        }
        last = *reply;
    }
    operator.next(&mut stage, last) == Act::Done
}

#[test]
fn excess_goes_down_and_is_spent(rt: HostRuntime) -> Result<(), Fail> {
    let net = four_nodes(rt.alloc())?;
    let operator = Discharge::new(rt.alloc(), &net)?;
    let acts = [
        asked(2, EXCESS, 2, 0, 3),
        asked(2, HEIGHT, 2, 0, 1),
        asked(1, FLOW, 1, 0, 3),
        asked(1, HEIGHT, 1, 0, 4),
        asked(3, FLOW, 3, 0, 0),
        asked(4, HEIGHT, 4, 0, 0),
        asked(3, SEND, 3, 2, 0),
        asked(2, GAIN, 2, -2, 0),
        asked(4, GAIN, 4, 2, 0),
        asked(5, FLOW, 5, 0, 0),
        asked(3, HEIGHT, 3, 0, 0),
        asked(5, SEND, 5, 1, 0),
        asked(2, GAIN, 2, -1, 0),
        asked(3, GAIN, 3, 1, 0),
        pushed(3),
    ];
    assert!(rt; follows(&operator, node_item(2), acts.as_slice()));
    Ok(())
}

#[test]
fn excess_that_is_left_raises_the_node(rt: HostRuntime) -> Result<(), Fail> {
    let net = four_nodes(rt.alloc())?;
    let operator = Discharge::new(rt.alloc(), &net)?;
    let acts = [
        asked(2, EXCESS, 2, 0, 3),
        asked(2, HEIGHT, 2, 0, 0),
        asked(1, FLOW, 1, 0, 3),
        asked(1, HEIGHT, 1, 0, 4),
        asked(3, FLOW, 3, 0, 2),
        asked(5, FLOW, 5, 0, 0),
        asked(3, HEIGHT, 3, 0, 1),
        asked(2, RELABEL, 2, 2, 0),
        pushed(2),
    ];
    assert!(rt; follows(&operator, node_item(2), acts.as_slice()));
    Ok(())
}

#[test]
fn excess_goes_back_along_an_arc(rt: HostRuntime) -> Result<(), Fail> {
    let net = four_nodes(rt.alloc())?;
    let operator = Discharge::new(rt.alloc(), &net)?;
    let acts = [
        asked(2, EXCESS, 2, 0, 1),
        asked(2, HEIGHT, 2, 0, 5),
        asked(1, FLOW, 1, 0, 3),
        asked(1, HEIGHT, 1, 0, 4),
        asked(1, SEND, 1, -1, 0),
        asked(2, GAIN, 2, -1, 0),
        asked(1, GAIN, 1, 1, 0),
    ];
    assert!(rt; follows(&operator, node_item(2), acts.as_slice()));
    Ok(())
}

#[test]
fn other_items_have_nothing_to_do(rt: HostRuntime) -> Result<(), Fail> {
    let net = four_nodes(rt.alloc())?;
    let operator = Discharge::new(rt.alloc(), &net)?;
    assert_eq!(rt; operator.rooms(), 16);
    assert!(rt; !operator.ordered());
    assert!(rt; follows(&operator, node_item(0), [].as_slice()));
    assert!(rt; follows(&operator, node_item(5), [].as_slice()));
    assert!(rt; follows(&operator, Item::new(2, 1, 0, 0), [].as_slice()));
    Ok(())
}

fn commit_of(node: i64) -> Commit {
    Commit {
        worker: 0,
        iter: 0,
        item: node_item(node),
        steps: 0,
    }
}

fn make(
    shards: &mut Vec<FlowShard>,
    room: usize,
    method: u32,
    number: i64,
    amount: i64,
) -> Result<(), NoMemory> {
    if let Some(shard) = shards.get_mut(room) {
        shard.apply(flow_call(method, number, amount))?;
    }
    Ok(())
}

/// Rooms, the numbers of their nodes, and the heights and excesses there at the start.
const AT_START: [(usize, i64, i64, i64); 4] = [
    (1, 1, 4, -5),
    (2, 2, 0, 3),
    (3, 3, 0, 2),
    (4, 4, 0, 0),
];

#[test]
fn arcs_out_of_the_source_are_full(rt: HostRuntime) -> Result<(), Fail> {
    let net = four_nodes(rt.alloc())?;
    let (shards, ready) = start(rt.alloc(), &net)?;
    assert!(rt; ready.as_slice() == [node_item(2), node_item(3)].as_slice());
    assert_eq!(rt; shards.len(), 16);
    for (room, node, height, excess) in AT_START {
        assert_eq!(rt; shards[room].height(node), height);
        assert_eq!(rt; shards[room].excess(node), excess);
    }
    Ok(())
}

const REPORT: &[u8] = b"c i 2
c i 3
c i 2
s 2
f 1 2 3
f 1 3 2
f 2 4 2
f 3 4 0
f 2 3 -7
";

#[test]
fn a_report_has_the_order_and_the_flows(rt: HostRuntime) -> Result<(), Fail> {
    let net = four_nodes(rt.alloc())?;
    let (mut shards, _ready) = start(rt.alloc(), &net)?;
    for (room, method, number, amount) in [(3, SEND, 3, 2), (5, SEND, 5, -7), (4, GAIN, 4, 2)] {
        make(&mut shards, room, method, number, amount)?;
    }
    let order = [commit_of(2), commit_of(3), commit_of(2)];
    let text = report(rt.alloc(), &net, order.as_slice(), &shards)?;
    assert!(rt; text.as_slice() == REPORT);
    Ok(())
}
