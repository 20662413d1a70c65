//! Random calls, undos and releases through three gates that differ in their screens alone, under simple tables.

ghost use Rattle.std.specs.Prelude.{◌<◌};

use crate::screen_gates::{Gates, cells_gates, set_gates};
use gate_core::{Gate, GateRefuse, Screen};
use gx_base::{Call, Item, Reply, SeqType};
use schedules::sched;
use shared_sets::{cells_methods, set_methods};
use std::test::Fail;

const ITEM: Item = Item {
    k0: 7,
    k1: 0,
    k2: 0,
    k3: 0,
};

const KEYS: u32 = 6;

/// How many calls were let in and refused, and how many steps had another answer in one of the gates.
#[derive(Clone, Copy, Drop)]
struct Counts {
    admitted: u64,
    conflicts: u64,
    differing: u64,
}

impl Counts {
    fn count(&mut self, outcome: &Result<Reply, GateRefuse>) {
        match outcome {
            Ok(_) => self.admitted = self.admitted.saturating_add(1),
            Err(_) => self.conflicts = self.conflicts.saturating_add(1),
        }
    }

    fn compare(&mut self, same: bool) {
        if !same {
            self.differing = self.differing.saturating_add(1);
        }
    }
}

fn calls<T: SeqType>(
    gates: &mut Gates<T>,
    counts: &mut Counts,
    worker: u32,
    iter: u64,
    call: Call,
) -> bool {
    let scanned = gates.scanned.call(worker, iter, ITEM, call);
    let logged = gates.logged.call(worker, iter, ITEM, call);
    let locked = gates.locked.call(worker, iter, ITEM, call);
    counts.count(&scanned);
    scanned == logged && logged == locked
}

fn undoes<T: SeqType>(gates: &mut Gates<T>, worker: u32, iter: u64) -> bool {
    let scanned = gates.scanned.undo_last(worker, iter);
    let logged = gates.logged.undo_last(worker, iter);
    let locked = gates.locked.undo_last(worker, iter);
    scanned == logged && logged == locked
}

fn release<T: SeqType, S: Screen<T>>(gate: &mut Gate<T, S>, worker: u32, iter: u64) {
    let number = gate.mark();
    if number < u64::MAX {
        gate.release(worker, iter, number);
    }
}

fn releases<T: SeqType>(gates: &mut Gates<T>, worker: u32, iter: u64) -> bool {
    release(&mut gates.scanned, worker, iter);
    release(&mut gates.logged, worker, iter);
    release(&mut gates.locked, worker, iter);
    gates.scanned.mark() == gates.locked.mark() && gates.logged.mark() == gates.locked.mark()
}

/// The call of a step: one of three methods, with a key and a number.
fn call_of(step: u64, first_method: u32) -> Call
    requires { first_method < 100 }
{
    let method = match sched(11, step, 3) {
        0 => first_method,
        1 => first_method + 1,
        _ => first_method + 2,
    };
    let key = sched(12, step, KEYS) as i64;
    let number = sched(13, step, 4) as i64 - 2;
    Call::new(method, key, number, 0, 0)
}

fn take_step<T: SeqType>(
    gates: &mut Gates<T>,
    counts: &mut Counts,
    step: u64,
    first_method: u32,
) -> bool
    requires { first_method < 100 }
{
    let worker = sched(14, step, 3);
    let iter = sched(15, step, 2) as u64;
    match sched(16, step, 10) {
        0 => undoes(gates, worker, iter),
        1 => releases(gates, worker, iter),
        _ => calls(gates, counts, worker, iter, call_of(step, first_method)),
    }
}

fn have_same_entries<T: SeqType>(gates: &Gates<T>) -> bool {
    gates.scanned.live() == gates.locked.live() && gates.logged.live() == gates.locked.live()
}

/// Ten thousand steps.
fn run<T: SeqType>(mut gates: Gates<T>, first_method: u32) -> Counts
    requires { first_method < 100 }
{
    let mut counts = Counts {
        admitted: 0,
        conflicts: 0,
        differing: 0,
    };
    for step in 0..10_000 {
        let same = take_step(&mut gates, &mut counts, step, first_method);
        counts.compare(same && have_same_entries(&gates));
    }
    counts
}

#[test]
fn three_screens_answer_alike_on_sets(rt: HostRuntime) -> Result<(), Fail> {
    let counts = run(set_gates(rt.alloc())?, set_methods::ADD);
    assert_eq!(rt; counts.differing, 0);
    assert!(rt; counts.admitted > 1000 && counts.conflicts > 1000);
    Ok(())
}

#[test]
fn three_screens_answer_alike_on_cells(rt: HostRuntime) -> Result<(), Fail> {
    let counts = run(cells_gates(rt.alloc())?, cells_methods::READ);
    assert_eq!(rt; counts.differing, 0);
    assert!(rt; counts.admitted > 1000 && counts.conflicts > 1000);
    Ok(())
}
