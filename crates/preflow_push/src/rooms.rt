ghost use Rattle.std.specs.Prelude.{◌≡◌, ◌<◌, map};
ghost use Rattle.gx_base.specs.Replays.{in_rooms};
ghost use Rattle.flow_graph.specs.FlowState.{state_of};
ghost use Rattle.preflow_push.specs.FlowCalls.{room_of, rooms};
ghost use Rattle.preflow_push.specs.FlowStates.{excess_in, flow_in};

use flow_graph::FlowShard;
use gx_base::Room;

/// How many rooms there are.
pub const ROOMS: u32 = 16;

/// The room of a node or an arc, by its number.
pub fn room_of(number: i64) -> Room
    ensures value { result ≡ room_of number }
    ensures few { result < rooms }
{
    number.rem_euclid(ROOMS as i64) as u32
}

/// The excess of a node. It is 0 where there is no shard in its room.
pub fn excess_in(shards: &[FlowShard], node: i64) -> i64
    ensures { result ≡ excess_in (in_rooms (map state_of shards.now)) node }
{
    match shards.get(room_of(node) as usize) {
        Some(shard) => shard.excess(node),
        None => 0,
    }
}

/// The flow of an arc. It is 0 where there is no shard in its room.
pub fn flow_in(shards: &[FlowShard], arc: i64) -> i64
    ensures { result ≡ flow_in (in_rooms (map state_of shards.now)) arc }
{
    match shards.get(room_of(arc) as usize) {
        Some(shard) => shard.flow(arc),
        None => 0,
    }
}
