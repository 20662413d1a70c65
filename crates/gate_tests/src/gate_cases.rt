//! Gates over sets and cells under the precise tables, with values worked by hand.

use forward_gate::ForwardScreen;
use gate_core::laws::shipped_tables_serve_gates;
use gate_core::{Entry, Gate, GateRefuse, Told};
use gx_base::{Call, Choice, Item, Kind, NoMemory, Reply, Seen, SeqType};
use shared_sets::laws::shipped_tables_are_not_general;
use shared_sets::{Cells, SharedSet, cells_methods, set_methods};
use std::alloc::Global;
use std::test::Fail;

const ITEM: Item = Item {
    k0: 0,
    k1: 0,
    k2: 0,
    k3: 0,
};

/// A gate on a set that holds 5, or none.
fn set_gate(alloc: Global, holds: bool) -> Result<Gate<SharedSet, ForwardScreen>, NoMemory> {
    let table = SharedSet::shipped(alloc, Kind::Set, Choice::Precise)?;
    shipped_tables_serve_gates::<SharedSet>();
    shipped_tables_are_not_general();
    let mut gate = Gate::new(
        alloc,
        SharedSet::new(alloc),
        Kind::Set,
        table,
        ForwardScreen::new(),
    );
    if holds {
        let _reply = gate.call(9, 0, ITEM, Call::new(set_methods::ADD, 5, 0, 0, 0));
        if gate.mark() == 0 {
            gate.release(9, 0, 0);
        }
    }
    Ok(gate)
}

fn cells_gate(alloc: Global) -> Result<Gate<Cells, ForwardScreen>, NoMemory> {
    let table = Cells::shipped(alloc, Kind::Cells, Choice::Precise)?;
    shipped_tables_serve_gates::<Cells>();
    shipped_tables_are_not_general();
    let object = Cells::new(alloc);
    Ok(Gate::new(alloc, object, Kind::Cells, table, ForwardScreen::new()))
}

/// Whether a call of a worker's first iteration on 5 is let in and replies so.
fn adds_five(gate: &mut Gate<SharedSet, ForwardScreen>, worker: u32, value: i64) -> bool {
    let add = Call::new(set_methods::ADD, 5, 0, 0, 0);
    gate.call(worker, 0, ITEM, add) == Ok(Reply::new(value, 0, 0, 0))
}

#[test]
fn gate_set_add(rt: HostRuntime) -> Result<(), Fail> {
    let mut gate = set_gate(rt.alloc(), true)?;
    assert!(rt; adds_five(&mut gate, 0, 0));
    assert!(rt; adds_five(&mut gate, 1, 0));
    let mut gate = set_gate(rt.alloc(), false)?;
    assert!(rt; adds_five(&mut gate, 0, 1));
    let add = Call::new(set_methods::ADD, 5, 0, 0, 0);
    let told = Told {
        held: Entry {
            worker: 0,
            iter: 0,
            item: ITEM,
            call: add,
            reply: Reply::new(1, 0, 0, 0),
            seen: 0,
            done: None,
        },
        asked: add,
        would: Reply::new(0, 0, 0, 0),
        seen: Seen {
            first: 0,
            second: 0,
        },
    };
    let refused = gate.call(1, 0, ITEM, add) == Err(GateRefuse::Conflict(told));
    assert!(rt; refused);
    Ok(())
}

/// Whether a worker's first iteration may add to the number of 3.
fn adds(gate: &mut Gate<Cells, ForwardScreen>, worker: u32, amount: i64) -> bool {
    let add = Call::new(cells_methods::ADD, 3, amount, 0, 0);
    gate.call(worker, 0, ITEM, add) == Ok(Reply::new(0, 0, 0, 0))
}

fn undoes(gate: &mut Gate<Cells, ForwardScreen>, worker: u32, amount: i64) -> bool {
    let add = Call::new(cells_methods::ADD, 3, amount, 0, 0);
    gate.undo_last(worker, 0) == Some((add, Reply::new(0, 0, 0, 0)))
}

#[test]
fn gate_cells_add(rt: HostRuntime) -> Result<(), Fail> {
    let mut gate = cells_gate(rt.alloc())?;
    assert!(rt; adds(&mut gate, 0, 5));
    assert!(rt; adds(&mut gate, 1, 7));
    assert_eq!(rt; gate.object().value(3), 12);
    assert!(rt; undoes(&mut gate, 0, 5));
    assert_eq!(rt; gate.object().value(3), 7);
    assert_eq!(rt; gate.live().len(), 1);
    assert!(rt; gate.undo_last(0, 0).is_none());
    let first = gate.mark() == 0;
    if first {
        gate.release(1, 0, 0);
    }
    assert!(rt; first);
    assert_eq!(rt; gate.done().len(), 1);
    assert_eq!(rt; gate.mark(), 1);
    assert_eq!(rt; gate.object().value(3), 7);
    Ok(())
}
