//! Gates over points under the precise table, with values worked by hand.

use forward_gate::ForwardScreen;
use gate_core::laws::shipped_tables_serve_gates;
use gate_core::{Gate, GateRefuse};
use gx_base::{Call, Choice, Item, Kind, NoMemory, Reply, SeqType};
use kd_points::KdPoints;
use kd_points::laws::shipped_tables_are_not_general;
use kd_points::point_methods::{ADD, NEAREST, REMOVE};
use std::alloc::Global;
use std::test::Fail;

pub type PointGate = Gate<KdPoints, ForwardScreen>;

const ITEM: Item = Item {
    k0: 0,
    k1: 0,
    k2: 0,
    k3: 0,
};

/// A gate on these points.
pub fn gate_on(alloc: Global, points: KdPoints) -> Result<PointGate, NoMemory> {
    let table = KdPoints::shipped(alloc, Kind::Points, Choice::Precise)?;
    shipped_tables_serve_gates::<KdPoints>();
    shipped_tables_are_not_general();
    Ok(Gate::new(alloc, points, Kind::Points, table, ForwardScreen::new()))
}

/// Points with the numbers from 0 on at these places.
fn points_at(alloc: Global, places: &[(i64, i64)]) -> Result<KdPoints, NoMemory> {
    let mut points = KdPoints::new(alloc);
    for (id, place) in places.iter().enumerate() {
        points.apply(Call::new(ADD, id as i64, place.0, place.1, 0))?;
    }
    Ok(points)
}

/// Whether the worker's first iteration may make the call, and it replies this.
fn replies(gate: &mut PointGate, worker: u32, call: Call, reply: Reply) -> bool {
    gate.call(worker, 0, ITEM, call) == Ok(reply)
}

/// Whether the call is in conflict with one of the other worker, and would reply this.
fn conflicts(gate: &mut PointGate, worker: u32, call: Call, held: Call, would: Reply) -> bool {
    match gate.call(worker, 0, ITEM, call) {
        Err(GateRefuse::Conflict(told)) => told.held.call == held && told.would == would,
        _ => false,
    }
}

#[test]
fn gate_points(rt: HostRuntime) -> Result<(), Fail> {
    let points = points_at(rt.alloc(), &[(0, 0), (2, 0), (0, 2)])?;
    let mut gate = gate_on(rt.alloc(), points)?;
    let nearest = Call::new(NEAREST, 0, 0, 0, 0);
    let yes = Reply::new(1, 0, 0, 0);
    assert!(rt; replies(&mut gate, 0, nearest, Reply::new(1, 2, 0, 0)));
    assert!(rt; conflicts(&mut gate, 1, Call::new(ADD, 3, 1, 0, 0), nearest, yes));
    assert!(rt; replies(&mut gate, 1, Call::new(ADD, 3, 9, 9, 0), yes));
    Ok(())
}

#[test]
fn gate_remove_nearest(rt: HostRuntime) -> Result<(), Fail> {
    let points = points_at(rt.alloc(), &[(0, 0), (4, 0)])?;
    let mut gate = gate_on(rt.alloc(), points)?;
    let remove = Call::new(REMOVE, 1, 4, 0, 0);
    let nearest = Call::new(NEAREST, 0, 0, 0, 0);
    assert!(rt; replies(&mut gate, 0, remove, Reply::new(1, 0, 0, 0)));
    assert!(rt; conflicts(&mut gate, 1, nearest, remove, Reply::new(-1, 0, 0, 0)));
    assert!(rt; gate.undo_last(0, 0) == Some((remove, Reply::new(1, 0, 0, 0))));
    assert!(rt; replies(&mut gate, 1, nearest, Reply::new(1, 4, 0, 0)));
    Ok(())
}
