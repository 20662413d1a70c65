//! Gates over sets whose conflicts locks tell, with answers worked by hand.

use abstract_locks::{CompileRefuse, LockScreen};
use gate_core::laws::shipped_tables_serve_gates;
use gate_core::{Gate, GateRefuse};
use gx_base::{Call, Choice, Item, Kind, NoMemory, Reply, SeqType};
use shared_sets::{SharedSet, cells_methods, set_methods};
use std::alloc::Global;
use std::test::Fail;

const ITEM: Item = Item {
    k0: 0,
    k1: 0,
    k2: 0,
    k3: 0,
};

/// A gate under the simple table on a set that holds 5, or none.
pub(crate) fn locked_set(
    alloc: Global,
    holds: bool,
) -> Result<Gate<SharedSet, LockScreen>, CompileRefuse> {
    let table = SharedSet::shipped(alloc, Kind::Set, Choice::Simple)?;
    let locks = LockScreen::new(alloc, Kind::Set, &table)?;
    shipped_tables_serve_gates::<SharedSet>();
    let mut gate = Gate::new(alloc, SharedSet::new(alloc), Kind::Set, table, locks);
    if holds {
        let _reply = gate.call(9, 0, ITEM, Call::new(set_methods::ADD, 5, 0, 0, 0));
        if gate.mark() == 0 {
            gate.release(9, 0, 0);
        }
    }
    Ok(gate)
}

/// Whether a call of a worker's first iteration on a number is let in and replies so.
fn is_let_in(
    gate: &mut Gate<SharedSet, LockScreen>,
    worker: u32,
    method: u32,
    number: i64,
    reply: i64,
) -> bool {
    let call = Call::new(method, number, 0, 0, 0);
    gate.call(worker, 0, ITEM, call) == Ok(Reply::new(reply, 0, 0, 0))
}

/// Whether a call of a worker's first iteration on a number is refused, with a call of worker 0 in its way.
fn is_in_conflict(
    gate: &mut Gate<SharedSet, LockScreen>,
    worker: u32,
    method: u32,
    number: i64,
    held: Call,
) -> bool {
    match gate.call(worker, 0, ITEM, Call::new(method, number, 0, 0, 0)) {
        Err(GateRefuse::Conflict(told)) => told.held.worker == 0 && told.held.call == held,
        _ => false,
    }
}

#[test]
fn gate_set_add_under_locks(rt: HostRuntime) -> Result<(), Fail> {
    let add = Call::new(set_methods::ADD, 5, 0, 0, 0);
    let mut gate = locked_set(rt.alloc(), true)?;
    assert!(rt; is_let_in(&mut gate, 0, set_methods::ADD, 5, 0));
    assert!(rt; is_in_conflict(&mut gate, 1, set_methods::ADD, 5, add));
    let mut gate = locked_set(rt.alloc(), false)?;
    assert!(rt; is_let_in(&mut gate, 0, set_methods::ADD, 5, 1));
    assert!(rt; is_in_conflict(&mut gate, 1, set_methods::ADD, 5, add));
    assert!(rt; is_let_in(&mut gate, 1, set_methods::ADD, 6, 1));
    assert_eq!(rt; gate.live().len(), 2);
    Ok(())
}

#[test]
fn those_who_only_look_share_a_lock(rt: HostRuntime) -> Result<(), Fail> {
    let look = Call::new(set_methods::CONTAINS, 5, 0, 0, 0);
    let mut gate = locked_set(rt.alloc(), false)?;
    assert!(rt; is_let_in(&mut gate, 0, set_methods::CONTAINS, 5, 0));
    assert!(rt; is_let_in(&mut gate, 1, set_methods::CONTAINS, 5, 0));
    assert!(rt; is_in_conflict(&mut gate, 2, set_methods::REMOVE, 5, look));
    assert!(rt; gate.undo_last(0, 0).is_some());
    assert!(rt; is_let_in(&mut gate, 1, set_methods::REMOVE, 6, 0));
    Ok(())
}

#[test]
fn a_call_of_another_kind_has_no_locks_and_is_in_conflict(rt: HostRuntime) -> Result<(), Fail> {
    let look = Call::new(set_methods::CONTAINS, 5, 0, 0, 0);
    let mut gate = locked_set(rt.alloc(), false)?;
    assert!(rt; is_let_in(&mut gate, 0, set_methods::CONTAINS, 5, 0));
    assert!(rt; is_in_conflict(&mut gate, 1, cells_methods::READ, 6, look));
    Ok(())
}

/// Whether a shipped table of sets has no locks, with the first pair that isn't simple.
fn is_refused_at_adds(alloc: Global, choice: Choice) -> Result<bool, NoMemory> {
    let table = SharedSet::shipped(alloc, Kind::Set, choice)?;
    match LockScreen::new(alloc, Kind::Set, &table) {
        Err(CompileRefuse::NotSimple { first, second }) => {
            Ok(first == set_methods::ADD && second == set_methods::ADD)
        }
        _ => Ok(false),
    }
}

#[test]
fn a_table_with_a_row_that_is_not_simple_has_no_locks(rt: HostRuntime) -> Result<(), Fail> {
    assert!(rt; is_refused_at_adds(rt.alloc(), Choice::Precise)?);
    assert!(rt; !is_refused_at_adds(rt.alloc(), Choice::Rw)?);
    Ok(())
}
