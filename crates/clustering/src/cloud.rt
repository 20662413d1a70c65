ghost use Rattle.std.specs.Prelude.{◌≡◌, IsTrue, IfOk, OnOk, OnErr};

use gx_base::{Call, Choice, Kind, NoMemory, Reply, SeqType, Table};
use kd_points::KdPoints;
use shared_sets::Cells;
use std::alloc::Global;

/// What stands in a room: the points, or cells by their numbers. A call of the other kind of object changes nothing.
#[derive(Drop)]
pub enum Cloud {
    Points(KdPoints),
    Weights(Cells),
}

impl SeqType for Cloud {
    ghost use Rattle.gx_base.specs.ShippedTables.{IsShipped};
    ghost use Rattle.clustering.specs.CloudState.{state_of, has_room, holds_clouds, cloud_tables, state_of-IsState, foreign-has_room, cloud_tables-SuitKind};

    ghost state = { state_of };

    ghost has_room = { has_room };

    ghost holds_kind = { holds_clouds };

    ghost tables = { cloud_tables };

    ghost known = { state_of-IsState };

    ghost foreign_roomed = { foreign-has_room };

    ghost tables_suit = { cloud_tables-SuitKind };

    fn apply(&mut self, call: Call) -> Result<Reply, NoMemory> {
        match self {
            Cloud::Points(points) => points.apply(call),
            Cloud::Weights(cells) => cells.apply(call),
        }
    }

    fn roomed(&self, call: Call, reply: Reply) -> bool {
        match self {
            Cloud::Points(points) => points.roomed(call, reply),
            Cloud::Weights(cells) => cells.roomed(call, reply),
        }
    }

    fn undo(&mut self, call: Call, reply: Reply) {
        match self {
            Cloud::Points(points) => points.undo(call, reply),
            Cloud::Weights(cells) => cells.undo(call, reply),
        }
    }

    fn redo(&mut self, call: Call, reply: Reply) {
        match self {
            Cloud::Points(points) => points.redo(call, reply),
            Cloud::Weights(cells) => cells.redo(call, reply),
        }
    }

    fn observe(&self, x: i64) -> i64 {
        match self {
            Cloud::Points(points) => points.observe(x),
            Cloud::Weights(cells) => cells.observe(x),
        }
    }

    fn tidy(&mut self) -> Result<(), NoMemory> {
        match self {
            Cloud::Points(points) => points.tidy(),
            Cloud::Weights(cells) => cells.tidy(),
        }
    }

    fn shipped(alloc: Global, kind: Kind, choice: Choice) -> Result<Table, NoMemory> {
        match kind {
            Kind::Points => KdPoints::shipped(alloc, kind, choice),
            Kind::Cells => Cells::shipped(alloc, kind, choice),
            Kind::Set => Ok(Table::blank(alloc)),
            Kind::Flow => Ok(Table::blank(alloc)),
            Kind::Domains => Ok(Table::blank(alloc)),
        }
    }
}
