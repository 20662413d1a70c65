//! Networks, what they begin with, and rooms of gates over them.

ghost use Rattle.std.specs.Prelude.{◌≡◌, ◌<◌, ◌+◌, ◌^◌, length, IfOk, OnOk};
ghost use Rattle.rooms.specs.Values.{tells};
ghost use Rattle.rooms.specs.Visits.{view_of};
ghost use Rattle.speculation.specs.ScheduledRuns.{AllBelow};
ghost use Rattle.session_cases.specs.Beginnings.{HasNoEntries, AreNewGates, AreNewRooms};

use crate::plain_rooms::PlainRoom;
use commit_book::Book;
use flow_graph::{EXCESS, FLOW, FlowShard, HEIGHT};
use gate_core::laws::shipped_tables_serve_gates;
use gate_core::{Gate, ScanScreen, Screen};
use gx_base::{Choice, Item, Kind, NoMemory, SeqType};
use preflow_push::{Arc, Network, start};
use rooms::{Value, VecRooms};
use std::alloc::Global;

pub const ROOMS: i64 = 16;

/// Numbers that follow from a seed.
#[derive(Drop)]
pub struct Draws {
    state: u64,
}

impl Draws {
    pub fn new(seed: u64) -> Draws {
        Draws { state: seed }
    }

    pub fn below(&mut self, end: u64) -> u64
        requires { 0 < end }
        ensures { result < end }
    {
        self.state = self
            .state
            .wrapping_mul(6_364_136_223_846_793_005)
            .wrapping_add(1_442_695_040_888_963_407);
        (self.state >> 33) % end
    }
}

fn arc(from: i64, to: i64, cap: i64) -> Arc {
    Arc { from, to, cap }
}

/// Two ways of one unit each from node 1 to node 4.
pub fn diamond(alloc: Global) -> Result<Network, NoMemory> {
    let arcs = vec![in alloc; arc(1, 2, 1), arc(1, 3, 1), arc(2, 4, 1), arc(3, 4, 1)]?;
    Ok(Network {
        nodes: 4,
        source: 1,
        sink: 4,
        arcs,
    })
}

/// Three arcs from each node but the last, of small capacities.
pub fn drawn_network(alloc: Global, nodes: u32, draws: &mut Draws) -> Result<Network, NoMemory> {
    let mut arcs = Vec::new(alloc);
    if nodes > 1 {
        for from in 1..nodes {
            for _ in 0..3u32 {
                let drawn = 1 + draws.below(nodes as u64) as i64;
                let to = if drawn == from as i64 {
                    from as i64 + 1
                } else {
                    drawn
                };
                let cap = 1 + draws.below(6) as i64;
                arcs.push(arc(from as i64, to, cap))?;
            }
        }
    }
    Ok(Network {
        nodes: nodes as i64,
        source: 1,
        sink: nodes as i64,
        arcs,
    })
}

/// What a plain room's numbers are at the start, and the items that are ready then.
pub fn plain_start(alloc: Global, net: &Network) -> Result<(Vec<PlainRoom>, Vec<Item>), NoMemory> {
    let mut rooms = Vec::new(alloc);
    for _ in 0..ROOMS {
        rooms.push(PlainRoom::new(alloc))?;
    }
    begin(&mut rooms, HEIGHT, net.source, net.nodes)?;
    let mut number = 0i64;
    for arc in &net.arcs {
        number = number.wrapping_add(1);
        if arc.from == net.source {
            begin(&mut rooms, FLOW, number, arc.cap)?;
        }
    }
    let mut ready = Vec::new(alloc);
    for node in 1..net.nodes.wrapping_add(1) {
        let excess = excess_at_start(net, node);
        begin(&mut rooms, EXCESS, node, excess)?;
        if excess > 0 && node != net.source && node != net.sink {
            ready.push(Item::new(node, 0, 0, 0))?;
        }
    }
    Ok((rooms, ready))
}

/// What comes in from the source, without what goes out of it.
fn excess_at_start(net: &Network, node: i64) -> i64 {
    let mut excess = 0i64;
    for arc in &net.arcs {
        if arc.from == net.source {
            if arc.to == node {
                excess = excess.wrapping_add(arc.cap);
            }
            if arc.from == node {
                excess = excess.wrapping_sub(arc.cap);
            }
        }
    }
    excess
}

fn begin(rooms: &mut [PlainRoom], method: u32, number: i64, value: i64) -> Result<(), NoMemory> {
    match rooms.get_mut(number.rem_euclid(ROOMS) as usize) {
        Some(room) => room.begin_with(method, number, value),
        None => Ok(()),
    }
}

fn flow_gate(alloc: Global, shard: FlowShard) -> Result<Gate<FlowShard, ScanScreen>, NoMemory>
    ensures { IfOk result (λ gate. HasNoEntries gate) }
{
    let table = FlowShard::shipped(alloc, Kind::Flow, Choice::Precise)?;
    shipped_tables_serve_gates::<FlowShard>();
    Ok(Gate::new(alloc, shard, Kind::Flow, table, ScanScreen::new()))
}

fn flow_gates(
    alloc: Global,
    shards: Vec<FlowShard>,
) -> Result<Vec<Value<FlowShard, ScanScreen>>, NoMemory>
    ensures new { IfOk result (λ values. AreNewGates values.items) }
    ensures count { IfOk result (λ values. length values.items ≡ length shards.items) }
{
    let mut values = Vec::new(alloc);
    for shard in shards {
        values.push(Value::Object(flow_gate(alloc, shard)?))?;
    }
    Ok(values)
}

/// A gate for each of the shards that a network begins with, and then the book.
pub fn new_rooms(
    alloc: Global,
    net: &Network,
) -> Result<VecRooms<Value<FlowShard, ScanScreen>>, NoMemory>
    ensures { IfOk result (λ rooms. AreNewRooms 16 (view_of tells rooms)) }
{
    let (shards, ready) = start(alloc, net)?;
    let gates = flow_gates(alloc, shards)?;
    with_book(alloc, gates, &ready)
}

/// Gates, and then a book in which these items are ready.
pub fn with_book<T: SeqType, S: Screen<T>>(
    alloc: Global,
    gates: Vec<Value<T, S>>,
    ready: &[Item],
) -> Result<VecRooms<Value<T, S>>, NoMemory>
    requires new { AreNewGates gates.items }
    requires few { length gates.items + 1 < 2 ^ 32 }
    ensures { IfOk result (λ rooms. AreNewRooms (length gates.items) (view_of tells rooms)) }
{
    let mut values = gates;
    let book = Book::new(alloc, false, ready)?;
    values.push(Value::Book(book))?;
    Ok(VecRooms::new(alloc, values))
}

/// One more turn of a schedule.
pub fn add_turn(schedule: &mut Vec<u32>, workers: u32, worker: u32) -> Result<(), NoMemory>
    requires below { worker < workers }
    requires all { AllBelow schedule.old.items workers }
    ensures { OnOk result (AllBelow schedule.new.items workers) }
{
    schedule.push(worker)?;
    Ok(())
}
