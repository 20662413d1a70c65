//! Random calls, conflicts, undos and releases of several iterations through gates, each answer beside the model's.

ghost use Rattle.std.specs.Prelude.{◌≡◌, ◌<◌};

use crate::model::{LiveCall, Model};
use forward_gate::ForwardScreen;
use gate_core::laws::shipped_tables_serve_gates;
use gate_core::{Gate, GateRefuse, ScanScreen, Screen};
use gx_base::{Call, Choice, Item, Kind, NoMemory, Reply, SeqType};
use shared_sets::laws::shipped_tables_are_not_general;
use shared_sets::{Cells, SharedSet, cells_methods, set_methods};
use std::alloc::{AllocError, Global};
use std::test::Fail;

const ITEM: Item = Item {
    k0: 7,
    k1: 0,
    k2: 0,
    k3: 0,
};

/// Which calls are drawn: of three methods from this one on, on so many keys. At every so many steps the numbers of
/// all keys are compared.
#[derive(Clone, Copy, Drop)]
struct Range {
    first_method: u32,
    keys: u32,
    compared: u32,
}

/// Numbers that follow from a seed.
#[derive(Drop)]
struct Draws {
    state: u64,
}

impl Draws {
    fn below(&mut self, end: u64) -> u64
        requires { 0 < end }
        ensures { result < end }
    {
        self.state = self
            .state
            .wrapping_mul(6_364_136_223_846_793_005)
            .wrapping_add(1_442_695_040_888_963_407);
        (self.state >> 33) % end
    }
}

/// How many steps of each sort there were, after how many fewer keys had rows, and how many whose answer or state
/// differed from the model's.
#[derive(Clone, Copy, Drop)]
struct Counts {
    admitted: u64,
    conflicts: u64,
    undone: u64,
    released: u64,
    tidied: u64,
    differing: u64,
}

const NO_STEPS: Counts = Counts {
    admitted: 0,
    conflicts: 0,
    undone: 0,
    released: 0,
    tidied: 0,
    differing: 0,
};

impl Counts {
    fn is_long(&self) -> bool {
        self.admitted.saturating_add(self.conflicts) > 10_000
    }

    fn is_varied(&self) -> bool {
        self.admitted > 3000 && self.conflicts > 1000 && self.undone > 500 && self.released > 500
    }
}

/// What shows the number of a key, which is 1 or 0 for sets, and whether the key has a row.
trait Numbered {
    fn number(&self, key: i64) -> i64;

    fn has_row(&self, key: i64) -> bool;
}

impl Numbered for SharedSet {
    fn number(&self, key: i64) -> i64 {
        if self.has(key) { 1 } else { 0 }
    }

    fn has_row(&self, key: i64) -> bool {
        self.roomed(
            Call::new(set_methods::ADD, key, 0, 0, 0),
            Reply::new(1, 0, 0, 0),
        )
    }
}

impl Numbered for Cells {
    fn number(&self, key: i64) -> i64 {
        self.value(key)
    }

    fn has_row(&self, key: i64) -> bool {
        self.roomed(
            Call::new(cells_methods::ADD, key, 0, 0, 0),
            Reply::new(0, 0, 0, 0),
        )
    }
}

fn agrees(outcome: Result<Reply, GateRefuse>, asked: LiveCall, way: Option<LiveCall>) -> bool {
    match (outcome, way) {
        (Ok(reply), None) => reply == Reply::new(asked.reply, 0, 0, 0),
        (Err(GateRefuse::Conflict(told)), Some(held)) => {
            let same_held = told.held.worker == held.worker
                && told.held.iter == held.iter
                && told.held.call == held.call
                && told.held.reply.p == held.reply;
            same_held && told.asked == asked.call && told.would.p == asked.reply
        }
        _ => false,
    }
}

/// One of the methods with a key and a number.
fn drawn_call(draws: &mut Draws, range: Range) -> Call
    requires methods { range.first_method < 100 }
    requires keys { 0 < range.keys }
{
    let method = range.first_method + draws.below(3) as u32;
    let key = draws.below(u64::from(range.keys)) as i64;
    let number = draws.below(4) as i64 - 2;
    Call::new(method, key, number, 0, 0)
}

fn calls<T: SeqType, S: Screen<T>>(
    gate: &mut Gate<T, S>,
    model: &mut Model,
    counts: &mut Counts,
    asked: LiveCall,
) -> Result<bool, AllocError> {
    let asked = LiveCall {
        reply: model.reply(asked.call),
        ..asked
    };
    let way = model.in_the_way(asked);
    if way.is_some() {
        counts.conflicts = counts.conflicts.saturating_add(1);
    } else {
        counts.admitted = counts.admitted.saturating_add(1);
        model.admit(asked)?;
    }
    Ok(agrees(
        gate.call(asked.worker, asked.iter, ITEM, asked.call),
        asked,
        way,
    ))
}

fn undoes<T: SeqType, S: Screen<T>>(
    gate: &mut Gate<T, S>,
    model: &mut Model,
    counts: &mut Counts,
    worker: u32,
    iter: u64,
) -> bool {
    match (gate.undo_last(worker, iter), model.undo_last(worker, iter)) {
        (Some((call, reply)), Some(held)) => {
            counts.undone = counts.undone.saturating_add(1);
            call == held.call && reply.p == held.reply
        }
        (None, None) => true,
        _ => false,
    }
}

fn releases<T: SeqType, S: Screen<T>>(gate: &mut Gate<T, S>, worker: u32, iter: u64) {
    let number = gate.mark();
    if number < u64::MAX {
        gate.release(worker, iter, number);
    }
}

fn step<T: SeqType, S: Screen<T>>(
    alloc: Global,
    gate: &mut Gate<T, S>,
    model: &mut Model,
    draws: &mut Draws,
    counts: &mut Counts,
    range: Range,
) -> Result<bool, AllocError>
    requires methods { range.first_method < 100 }
    requires keys { 0 < range.keys }
{
    let worker = draws.below(2) as u32;
    let iter = draws.below(2);
    match draws.below(10) {
        0 => Ok(undoes(gate, model, counts, worker, iter)),
        1 => {
            counts.released = counts.released.saturating_add(1);
            model.release(alloc, worker, iter)?;
            releases(gate, worker, iter);
            Ok(true)
        }
        _ => {
            let asked = LiveCall {
                worker,
                iter,
                call: drawn_call(draws, range),
                reply: 0,
            };
            calls(gate, model, counts, asked)
        }
    }
}

/// Commits the calls of all iterations, so that the object may tidy itself at the next call.
fn releases_all<T: SeqType, S: Screen<T>>(
    alloc: Global,
    gate: &mut Gate<T, S>,
    model: &mut Model,
) -> Result<(), AllocError> {
    for (worker, iter) in [(0, 0), (0, 1), (1, 0), (1, 1)] {
        model.release(alloc, worker, iter)?;
        releases(gate, worker, iter);
    }
    Ok(())
}

fn same_numbers<T: Numbered>(object: &T, model: &Model, keys: u32) -> bool {
    for key in 0..i64::from(keys) {
        if object.number(key) != model.number(key) {
            return false;
        }
    }
    true
}

/// How many keys have rows.
fn row_count<T: Numbered>(object: &T, keys: u32) -> u64 {
    let mut count: u64 = 0;
    for key in 0..i64::from(keys) {
        if object.has_row(key) {
            count = count.saturating_add(1);
        }
    }
    count
}

/// A step, with what differs after it, and whether keys lost their rows in it. They may where there are no uncommitted
/// calls.
fn compared_step<T: SeqType + Numbered, S: Screen<T>>(
    alloc: Global,
    gate: &mut Gate<T, S>,
    model: &mut Model,
    draws: &mut Draws,
    counts: &mut Counts,
    range: Range,
) -> Result<(), AllocError>
    requires methods { range.first_method < 100 }
    requires keys { 0 < range.keys }
{
    let rows = if gate.live().is_empty() {
        row_count(gate.object(), range.keys)
    } else {
        0
    };
    let agreed = step(alloc, gate, model, draws, counts, range)?;
    if !agreed || gate.live().len() != model.live_count() {
        counts.differing = counts.differing.saturating_add(1);
    }
    if rows > 0 && row_count(gate.object(), range.keys) < rows {
        counts.tidied = counts.tidied.saturating_add(1);
    }
    Ok(())
}

/// Steps of which more than ten thousand are calls. Now and then all that was done is committed.
fn run<T: SeqType + Numbered, S: Screen<T>>(
    alloc: Global,
    gate: &mut Gate<T, S>,
    range: Range,
) -> Result<Counts, AllocError>
    requires methods { range.first_method < 100 }
    requires keys { 0 < range.keys }
    requires compared { 0 < range.compared }
{
    let mut model = Model::new(alloc);
    let mut draws = Draws { state: 1 };
    let mut counts = NO_STEPS;
    for turn in 0..13_000u32 {
        if turn % 40 == 0 {
            releases_all(alloc, gate, &mut model)?;
        }
        compared_step(alloc, gate, &mut model, &mut draws, &mut counts, range)?;
        if turn % range.compared == 0 && !same_numbers(gate.object(), &model, range.keys) {
            counts.differing = counts.differing.saturating_add(1);
        }
    }
    Ok(counts)
}

fn set_gate(alloc: Global) -> Result<Gate<SharedSet, ForwardScreen>, NoMemory> {
    let table = SharedSet::shipped(alloc, Kind::Set, Choice::Precise)?;
    shipped_tables_serve_gates::<SharedSet>();
    shipped_tables_are_not_general();
    let object = SharedSet::new(alloc);
    Ok(Gate::new(alloc, object, Kind::Set, table, ForwardScreen::new()))
}

fn cells_gate(alloc: Global) -> Result<Gate<Cells, ForwardScreen>, NoMemory> {
    let table = Cells::shipped(alloc, Kind::Cells, Choice::Precise)?;
    shipped_tables_serve_gates::<Cells>();
    shipped_tables_are_not_general();
    let object = Cells::new(alloc);
    Ok(Gate::new(alloc, object, Kind::Cells, table, ForwardScreen::new()))
}

fn scanned_cells(alloc: Global) -> Result<Gate<Cells, ScanScreen>, NoMemory> {
    let table = Cells::shipped(alloc, Kind::Cells, Choice::Precise)?;
    shipped_tables_serve_gates::<Cells>();
    shipped_tables_are_not_general();
    let object = Cells::new(alloc);
    Ok(Gate::new(alloc, object, Kind::Cells, table, ScanScreen::new()))
}

const FEW_IN_SETS: Range = Range {
    first_method: set_methods::ADD,
    keys: 6,
    compared: 1,
};

const MANY_IN_SETS: Range = Range {
    first_method: set_methods::ADD,
    keys: 200,
    compared: 16,
};

const FEW_IN_CELLS: Range = Range {
    first_method: cells_methods::READ,
    keys: 6,
    compared: 1,
};

#[test]
fn random_calls_on_a_set_are_answered_as_by_the_model(rt: HostRuntime) -> Result<(), Fail> {
    let mut gate = set_gate(rt.alloc())?;
    let counts = run(rt.alloc(), &mut gate, FEW_IN_SETS)?;
    assert_eq!(rt; counts.differing, 0);
    assert!(rt; counts.is_long() && counts.is_varied());
    Ok(())
}

#[test]
fn a_set_that_drops_dead_rows_answers_so_too(rt: HostRuntime) -> Result<(), Fail> {
    let mut gate = set_gate(rt.alloc())?;
    let counts = run(rt.alloc(), &mut gate, MANY_IN_SETS)?;
    assert_eq!(rt; counts.differing, 0);
    assert!(rt; counts.is_long() && counts.conflicts > 100 && counts.tidied > 5);
    Ok(())
}

#[test]
fn random_calls_on_cells_are_answered_as_by_the_model(rt: HostRuntime) -> Result<(), Fail> {
    let mut gate = cells_gate(rt.alloc())?;
    let counts = run(rt.alloc(), &mut gate, FEW_IN_CELLS)?;
    assert_eq!(rt; counts.differing, 0);
    assert!(rt; counts.is_long() && counts.is_varied());
    Ok(())
}

#[test]
fn the_plain_scan_answers_so_too(rt: HostRuntime) -> Result<(), Fail> {
    let mut gate = scanned_cells(rt.alloc())?;
    let counts = run(rt.alloc(), &mut gate, FEW_IN_CELLS)?;
    assert_eq!(rt; counts.differing, 0);
    assert!(rt; counts.is_long() && counts.is_varied());
    Ok(())
}
