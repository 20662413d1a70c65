//! What no clause says: that calls succeed, and what they answer where memory runs out.
use gate_core::laws::shipped_tables_serve_gates;
use gate_core::{Entry, Gate, GateRefuse, ScanScreen, Told};
use gx_base::{Call, Choice, Cond, Item, Kind, NoMemory, Reply, Seen, SeqType, Table};
use std::alloc::Global;
use std::test::Fail;

const ADD: u32 = 0;

const CONTAINS: u32 = 2;

const NOTHING: Reply = Reply {
    p: 0,
    q: 0,
    r: 0,
    s: 0,
};

/// An empty set that has no memory for a number, and none at all after some calls.
#[derive(Drop)]
struct Meagre {
    calls: u32,
}

impl SeqType for Meagre {
    ghost use Rattle.std.specs.Prelude.{false, nat_lt};
    ghost use Rattle.gx_base.specs.Replays.{no_state};
    ghost use Rattle.gx_base.specs.SetKind.{IsMark};
    ghost use Rattle.gx_base.specs.ShippedTables.{false_rows};
    ghost use Rattle.gx_base.specs.States.{row_cmp};
    ghost use Rattle.gate_tests.specs.EmptySetMethods.{foreign_high};
    ghost use Rattle.std.proofs.Common.{subst, sym, true≢false};
    ghost use Rattle.std.specs.FinMap as map;

    ghost state = { λ _. no_state };

    ghost has_room = { λ _ made. nat_lt 1 made.call.method };

    ghost holds_kind = { λ _. false };

    ghost tables = { λ _. record { precise = false_rows; simple = false_rows; reader_writer = false_rows } };

    ghost foreign_roomed = { λ _ made. foreign_high made.call.method };

    ghost tables_suit = { λ _ held. absurd (true≢false (sym held)) };

    ghost known = { λ _ key. subst IsMark (sym (map.get-empty row_cmp key)) tt };

    fn apply(&mut self, call: Call) -> Result<Reply, NoMemory> {
        if call.method < CONTAINS || self.calls == 0 {
            return Err(NoMemory);
        }
        self.calls -= 1;
        Ok(NOTHING)
    }

    fn roomed(&self, call: Call, _reply: Reply) -> bool {
        1 < call.method
    }

    fn undo(&mut self, _call: Call, _reply: Reply) {}

    fn redo(&mut self, _call: Call, _reply: Reply) {}

    fn observe(&self, _x: i64) -> i64 {
        0
    }

    fn tidy(&mut self) -> Result<(), NoMemory> {
        Ok(())
    }

    fn shipped(alloc: Global, _kind: Kind, _choice: Choice) -> Result<Table, NoMemory> {
        Ok(Table::blank(alloc))
    }
}

/// A gate with the plain scan. The table that an empty set ships has none but false rows.
fn meagre_gate(alloc: Global, calls: u32) -> Result<Gate<Meagre, ScanScreen>, NoMemory> {
    let table = Meagre::shipped(alloc, Kind::Set, Choice::Global)?;
    shipped_tables_serve_gates::<Meagre>();
    let object = Meagre { calls };
    let screen = ScanScreen::new();
    Ok(Gate::new(alloc, object, Kind::Set, table, screen))
}

const ITEM: Item = Item {
    k0: 7,
    k1: 0,
    k2: 0,
    k3: 0,
};

fn contains(a: i64) -> Call {
    Call::new(CONTAINS, a, 0, 0, 0)
}

fn entry(worker: u32, iter: u64, call: Call) -> Entry {
    Entry {
        worker,
        iter,
        item: ITEM,
        call,
        reply: NOTHING,
        seen: 0,
        done: None,
    }
}

/// Commits iteration 5 of worker 0 under the number 3, where that doesn't fall.
fn release_as_third(gate: &mut Gate<Meagre, ScanScreen>) -> bool {
    let rises = gate.mark() <= 3;
    if rises {
        gate.release(0, 5, 3);
    }
    rises
}

fn replies(outcome: Result<Reply, GateRefuse>) -> bool {
    outcome == Ok(NOTHING)
}

fn lacks_memory(outcome: Result<Reply, GateRefuse>) -> bool {
    outcome == Err(GateRefuse::NoMemory)
}

fn tells(outcome: Result<Reply, GateRefuse>, told: Told) -> bool {
    outcome == Err(GateRefuse::Conflict(told))
}

fn takes_back(gate: &mut Gate<Meagre, ScanScreen>, iter: u64, call: Call) -> bool {
    gate.undo_last(0, iter) == Some((call, NOTHING))
}

fn needs<T: Send + Drop>(_value: &T) {}

#[test]
fn a_call_without_memory_leaves_all_as_it_was(rt: HostRuntime) -> Result<(), Fail> {
    let mut gate = meagre_gate(rt.alloc(), 2)?;
    assert!(rt; replies(gate.call(0, 5, ITEM, contains(4))));
    let add = Call::new(ADD, 4, 0, 0, 0);
    assert!(rt; lacks_memory(gate.call(0, 5, ITEM, add)));
    assert!(rt; replies(gate.call(0, 5, ITEM, contains(6))));
    // The object refuses its third call.
    assert!(rt; lacks_memory(gate.call(0, 5, ITEM, contains(8))));
    assert!(rt; gate.live() == [entry(0, 5, contains(4)), entry(0, 5, contains(6))].as_slice());
    assert!(rt; gate.done().is_empty());
    assert_eq!(rt; gate.mark(), 0);
    assert_eq!(rt; gate.object().calls, 0);
    Ok(())
}

#[test]
fn iterations_leave_by_themselves(rt: HostRuntime) -> Result<(), Fail> {
    let mut gate = meagre_gate(rt.alloc(), 20)?;
    needs(&gate);
    assert!(rt; release_as_third(&mut gate));
    assert_eq!(rt; gate.mark(), 0);
    for a in 0..3 {
        gate.call(0, 5, ITEM, contains(a))?;
    }
    let told = Told {
        held: entry(0, 5, contains(0)),
        asked: contains(1),
        would: NOTHING,
        seen: Seen {
            first: 0,
            second: 0,
        },
    };
    needs(&told);
    needs(&told.held);
    assert!(rt; tells(gate.call(0, 6, ITEM, contains(1)), told));
    assert!(rt; gate.undo_last(0, 6).is_none());
    assert!(rt; takes_back(&mut gate, 5, contains(2)));
    assert!(rt; release_as_third(&mut gate));
    let first = Entry {
        done: Some(3),
        ..entry(0, 5, contains(0))
    };
    let second = Entry {
        done: Some(3),
        ..entry(0, 5, contains(1))
    };
    assert!(rt; gate.done() == [first, second].as_slice());
    assert!(rt; gate.live().is_empty());
    assert_eq!(rt; gate.mark(), 4);
    assert!(rt; replies(gate.call(0, 6, ITEM, contains(1))));
    assert!(rt; matches!(gate.table().row(2, 2), Cond::False));
    // The object did three calls, the one that was in conflict, and the last.
    assert_eq!(rt; gate.into_object().calls, 15);
    Ok(())
}
