ghost use Rattle.std.specs.Prelude.{◌≡◌, map};
ghost use Rattle.gx_base.specs.Replays.{in_rooms};
ghost use Rattle.clustering.specs.CloudState.{state_of};
ghost use Rattle.clustering.specs.CloudRooms.{point_in, cell_in};

use crate::cloud::Cloud;
use crate::point_calls::{CELLS, POINTS};
use gx_base::Spot;

/// The point of a number. There is none where the points aren't in their room.
pub fn point_in(rooms: &[Cloud], id: i64) -> Option<Spot>
    ensures { result ≡ point_in (in_rooms (map state_of rooms.now)) id }
{
    match rooms.get(POINTS as usize) {
        Some(Cloud::Points(points)) => points.at(id),
        _ => None,
    }
}

/// The number of a key. It is 0 where the cells aren't in their room.
pub fn cell_in(rooms: &[Cloud], key: i64) -> i64
    ensures { result ≡ cell_in (in_rooms (map state_of rooms.now)) key }
{
    match rooms.get(CELLS as usize) {
        Some(Cloud::Weights(cells)) => cells.value(key),
        _ => 0,
    }
}
