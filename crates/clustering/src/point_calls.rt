ghost use Rattle.std.specs.Prelude.{◌≡◌, pos};
ghost use Rattle.gx_base.specs.declared.acts.Act.TheVariants as acts;
ghost use Rattle.clustering.specs.PointCalls as calls;
ghost use Rattle.clustering.specs.PointCalls.{points_room, cells_room, point_call, number_call};
ghost use Rattle.clustering.specs.Chain as chain;

use gx_base::{Act, Call, Item, Room, Spot};
use kd_points::point_methods::AT;
use shared_sets::cells_methods::{READ, SET};

/// The room of the points.
pub const POINTS: Room = 0;

/// The room of the cells.
pub const CELLS: Room = 1;

/// How many rooms there are.
pub const ROOMS: u32 = 2;

/// A call on a point, by its number and its place.
pub fn point_call(method: u32, spot: Spot) -> Call
    ensures { result ≡ point_call method spot }
{
    Call {
        method,
        a: spot.id,
        b: spot.x,
        c: spot.y,
        d: spot.z,
    }
}

/// A call by one number or two.
pub fn number_call(method: u32, a: i64, b: i64) -> Call
    ensures { result ≡ number_call method a b }
{
    Call {
        method,
        a,
        b,
        c: 0,
        d: 0,
    }
}

/// The act that makes a call on a point.
pub fn point_act(method: u32, spot: Spot) -> Act
    ensures { result ≡ acts.Call points_room (point_call method spot) }
{
    Act::Call {
        room: POINTS,
        call: point_call(method, spot),
    }
}

/// The act that asks for the point of a number.
pub fn at_act(id: i64) -> Act
    ensures { result ≡ acts.Call points_room (calls.at id) }
{
    Act::Call {
        room: POINTS,
        call: number_call(AT, id, 0),
    }
}

/// The act that asks for a cell.
pub fn read_act(key: i64) -> Act
    ensures { result ≡ acts.Call cells_room (calls.read key) }
{
    Act::Call {
        room: CELLS,
        call: number_call(READ, key, 0),
    }
}

/// The act that writes a cell.
pub fn set_act(key: i64, number: i64) -> Act
    ensures { result ≡ acts.Call cells_room (calls.set key number) }
{
    Act::Call {
        room: CELLS,
        call: number_call(SET, key, number),
    }
}

/// The item of a point.
pub fn id_item(id: i64) -> Item
    ensures { result ≡ chain.id_item id }
{
    Item {
        k0: id,
        k1: 0,
        k2: 0,
        k3: 0,
    }
}
