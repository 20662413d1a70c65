ghost use Rattle.std.specs.Prelude.{◌≡◌, ℤ, pos, ◌&&◌, ◌||◌, length, map, replicate, take, OnOk, IfOk};
ghost use Rattle.std.specs.BTreeSet as sorted;
ghost use Rattle.std.specs.Ordering.{int_cmp, int_eq};
ghost use Rattle.std.specs.List.{list_any, filter};
ghost use Rattle.std.specs.Int.{w64, int_wrapping_add};
ghost use Rattle.gx_base.specs.Replays.{in_rooms, put};
ghost use Rattle.gx_base.specs.Steps.{next_state};
ghost use Rattle.flow_graph.specs.FlowState.{state_of};
ghost use Rattle.preflow_push.specs.FlowCalls.{rooms, room_of, flow_call_of};
ghost use Rattle.preflow_push.specs.FlowStates.{flow_in};
ghost use Rattle.flow_files.specs.Networks.{view};
ghost use Rattle.preflow_push.specs.Discharge.{is_node, node_item};
ghost use Rattle.preflow_push.specs.Starts.{empty_shard, empty_rooms, with_height, with_gain, with_flow, filled, filled_from, poured, start_states, start_ready, is_active, nodes_to};

use crate::flow_calls::{flow_call, node_item};
use crate::rooms::{ROOMS, excess_in, room_of};
use flow_files::{Arc, Network};
use flow_graph::{FlowShard, GAIN, RELABEL, SEND};
use gx_base::{Item, NoMemory, SeqType};
use std::alloc::Global;
use std::collections::BTreeSet;

/// The shards at the start, one for each room, and the items that are ready then, by rising number.
pub fn start(alloc: Global, net: &Network) -> Result<(Vec<FlowShard>, Vec<Item>), NoMemory>
    ensures rooms { IfOk result (λ made. length made.0.items ≡ rooms) }
    ensures states { IfOk result (λ made. in_rooms (map state_of made.0.items) ≡ start_states (view net.now)) }
    ensures ready { IfOk result (λ made. made.1.items ≡ start_ready (view net.now)) }
{
    let mut shards = empty_shards(alloc)?;
    set_up(&mut shards, net)?;
    let ready = ready_items(alloc, net, &shards)?;
    Ok((shards, ready))
}

/// Makes empty shards those of the start.
fn set_up(shards: &mut [FlowShard], net: &Network) -> Result<(), NoMemory>
    requires { map state_of shards.old ≡ replicate rooms empty_shard }
    ensures { OnOk result (in_rooms (map state_of shards.new) ≡ start_states (view net.now)) }
{
    relabel(shards, net.source, net.nodes)?;
    pour(shards, net.source, &net.arcs)?;
    Ok(())
}

fn empty_shards(alloc: Global) -> Result<Vec<FlowShard>, NoMemory>
    ensures { IfOk result (λ made. map state_of made.items ≡ replicate rooms empty_shard) }
{
    let mut shards = Vec::new(alloc);
    for _ in 0..ROOMS {
        shards.push(FlowShard::new(alloc))?;
    }
    Ok(shards)
}

/// Makes a call in the room of its node or arc.
fn make(shards: &mut [FlowShard], method: u32, number: i64, amount: i64) -> Result<(), NoMemory>
    requires { length shards.old ≡ rooms }
    ensures { OnOk result (in_rooms (map state_of shards.new) ≡ put (in_rooms (map state_of shards.old)) (room_of number) (next_state (in_rooms (map state_of shards.old) (room_of number)) (flow_call_of method number amount))) }
{
    shards[room_of(number) as usize].apply(flow_call(method, number, amount))?;
    Ok(())
}

fn relabel(shards: &mut [FlowShard], node: i64, height: i64) -> Result<(), NoMemory>
    requires { length shards.old ≡ rooms }
    ensures { OnOk result (in_rooms (map state_of shards.new) ≡ with_height node height (in_rooms (map state_of shards.old))) }
{
    make(shards, RELABEL, node, height)?;
    Ok(())
}

fn gain(shards: &mut [FlowShard], node: i64, amount: i64) -> Result<(), NoMemory>
    requires { length shards.old ≡ rooms }
    ensures { OnOk result (in_rooms (map state_of shards.new) ≡ with_gain node amount (in_rooms (map state_of shards.old))) }
{
    make(shards, GAIN, node, amount)?;
    Ok(())
}

/// Sends an amount along an arc that carries nothing.
fn send(shards: &mut [FlowShard], arc: i64, amount: i64) -> Result<(), NoMemory>
    requires rooms { length shards.old ≡ rooms }
    requires no_flow { flow_in (in_rooms (map state_of shards.old)) arc ≡ pos 0 }
    ensures { OnOk result (in_rooms (map state_of shards.new) ≡ with_flow arc amount (in_rooms (map state_of shards.old))) }
{
    make(shards, SEND, arc, amount)?;
    Ok(())
}

/// Fills an arc that carries nothing.
fn fill(shards: &mut [FlowShard], number: i64, arc: &Arc) -> Result<(), NoMemory>
    requires rooms { length shards.old ≡ rooms }
    requires no_flow { flow_in (in_rooms (map state_of shards.old)) number ≡ pos 0 }
    ensures { OnOk result (in_rooms (map state_of shards.new) ≡ filled number arc.now (in_rooms (map state_of shards.old))) }
{
    send(shards, number, arc.cap)?;
    gain(shards, arc.from, arc.cap.wrapping_neg())?;
    gain(shards, arc.to, arc.cap)?;
    Ok(())
}

fn leaves(arc: &Arc, node: i64) -> bool
    ensures { result ≡ int_eq arc.now.from node }
{
    arc.from == node
}

/// Fills an arc that carries nothing where it leaves the source.
fn fill_from(shards: &mut [FlowShard], source: i64, number: i64, arc: &Arc) -> Result<(), NoMemory>
    requires rooms { length shards.old ≡ rooms }
    requires no_flow { flow_in (in_rooms (map state_of shards.old)) number ≡ pos 0 }
    ensures { OnOk result (in_rooms (map state_of shards.new) ≡ filled_from source number arc.now (in_rooms (map state_of shards.old))) }
{
    if leaves(arc, source) {
        fill(shards, number, arc)?;
    }
    Ok(())
}

/// Fills the arcs out of the source.
fn pour(shards: &mut [FlowShard], source: i64, arcs: &[Arc]) -> Result<(), NoMemory>
    requires rooms { length shards.old ≡ rooms }
    requires no_flow { (arc : ℤ) → flow_in (in_rooms (map state_of shards.old)) arc ≡ pos 0 }
    ensures { OnOk result (in_rooms (map state_of shards.new) ≡ poured source 1 arcs.now (in_rooms (map state_of shards.old))) }
{
    for (at, arc) in arcs.iter().enumerate() {
        fill_from(shards, source, at as i64 + 1, arc)?;
    }
    Ok(())
}

fn is_active(net: &Network, shards: &[FlowShard], node: i64) -> bool
    ensures { result ≡ is_active (view net.now) (in_rooms (map state_of shards.now)) node }
{
    node != net.source && node != net.sink && excess_in(shards, node) > 0
}

fn is_ready(net: &Network, shards: &[FlowShard], node: i64) -> bool
    ensures { result ≡ is_node net.now.nodes node && is_active (view net.now) (in_rooms (map state_of shards.now)) node }
{
    1 <= node && node <= net.nodes && is_active(net, shards, node)
}

fn insert_if_ready(
    nodes: &mut BTreeSet<i64>,
    net: &Network,
    shards: &[FlowShard],
    node: i64,
) -> Result<(), NoMemory>
    ensures { OnOk result ((q : ℤ) → sorted.contains int_cmp nodes.new q ≡ sorted.contains int_cmp nodes.old q || (int_eq q node && (is_node net.now.nodes q && is_active (view net.now) (in_rooms (map state_of shards.now)) q))) }
{
    if is_ready(net, shards, node) {
        nodes.insert(node)?;
    }
    Ok(())
}

/// The nodes that arcs enter and for which there is something to do.
fn active_nodes(
    alloc: Global,
    net: &Network,
    shards: &[FlowShard],
) -> Result<BTreeSet<i64>, NoMemory>
    ensures { IfOk result (λ nodes. (node : ℤ) → sorted.contains int_cmp nodes node ≡ list_any (λ arc. int_eq node arc.to) net.now.arcs.items && (is_node net.now.nodes node && is_active (view net.now) (in_rooms (map state_of shards.now)) node)) }
{
    let mut nodes = BTreeSet::new(alloc);
    for arc in net.arcs.iter() {
        insert_if_ready(&mut nodes, net, shards, arc.to)?;
    }
    Ok(nodes)
}

fn ready_items(alloc: Global, net: &Network, shards: &[FlowShard]) -> Result<Vec<Item>, NoMemory>
    requires { in_rooms (map state_of shards.now) ≡ start_states (view net.now) }
    ensures { IfOk result (λ items. items.items ≡ start_ready (view net.now)) }
{
    let nodes = active_nodes(alloc, net, shards)?;
    let items = items_of_nodes(alloc, &nodes)?;
    Ok(items)
}

fn items_of_nodes(alloc: Global, nodes: &BTreeSet<i64>) -> Result<Vec<Item>, NoMemory>
    ensures items { IfOk result (λ items. items.items ≡ map node_item nodes.now.keys) }
    ensures rising { sorted.IsOrdered int_cmp nodes.now }
{
    Ok(nodes.iter().map(|node| node_item(*node)).collect(alloc)?)
}
