//! Random calls, undos and releases of several iterations through a gate on points. The points are those that the
//! committed calls and the calls that are left make of a list, whatever was taken back before them.
ghost use Rattle.std.specs.Prelude.{◌<◌, IfSome, length};

use crate::draws::Draws;
use crate::gate_cases::{PointGate, gate_on};
use crate::list_of_points::ListOfPoints;
use gx_base::{Call, Item, NoMemory, Reply};
use kd_points::KdPoints;
use kd_points::point_methods::ADD;
use std::alloc::Global;
use std::test::Fail;

const ITEM: Item = Item {
    k0: 3,
    k1: 0,
    k2: 0,
    k3: 0,
};

const NUMBERS: u64 = 8;

/// A call that is in the gate.
#[derive(Clone, Copy, Drop)]
struct Held {
    worker: u32,
    iter: u64,
    call: Call,
    reply: Reply,
}

/// The calls that were committed, in the order of their commits, and those that weren't, in the order of the calls.
#[derive(Drop)]
struct Calls {
    committed: Vec<Held>,
    live: Vec<Held>,
}

fn last_place(live: &[Held], worker: u32, iter: u64) -> Option<usize>
    ensures { IfSome result (λ place. place < length live.now) }
{
    for place in (0..live.len()).rev() {
        if live[place].worker == worker && live[place].iter == iter {
            return Some(place);
        }
    }
    None
}

impl Calls {
    /// Strikes out the last uncommitted call of an iteration.
    fn undo_last(&mut self, worker: u32, iter: u64) -> Option<Held> {
        let place = last_place(&self.live, worker, iter)?;
        Some(self.live.remove(place))
    }

    fn release(&mut self, alloc: Global, worker: u32, iter: u64) -> Result<(), NoMemory> {
        let mut rest = Vec::new(alloc);
        for held in &self.live {
            if held.worker == worker && held.iter == iter {
                self.committed.push(*held)?;
            } else {
                rest.push(*held)?;
            }
        }
        self.live = rest;
        Ok(())
    }
}

/// Whether the calls, done in their order, reply what they replied.
fn replays(list: &mut ListOfPoints, calls: &[Held]) -> Result<bool, NoMemory> {
    let mut same = true;
    for held in calls {
        let reply = list.apply(held.call)?;
        same = same && reply == held.reply;
    }
    Ok(same)
}

fn same_points(list: &ListOfPoints, points: &KdPoints) -> bool {
    for id in 0..NUMBERS as i64 {
        if list.at(id) != points.at(id) {
            return false;
        }
    }
    list.count() == points.count()
}

/// Whether all calls, done again in their order, reply what they replied, and leave these points.
fn leave(alloc: Global, calls: &Calls, points: &KdPoints) -> Result<bool, NoMemory> {
    let mut list = ListOfPoints::new(alloc);
    let committed = replays(&mut list, &calls.committed)?;
    let live = replays(&mut list, &calls.live)?;
    Ok(committed && live && same_points(&list, points))
}

/// How many steps of each sort there were.
#[derive(Clone, Copy, Drop)]
struct Counts {
    admitted: u64,
    refused: u64,
    undone: u64,
    released: u64,
}

fn drawn_call(draws: &mut Draws) -> Call {
    let method = ADD + draws.below(4) as u32;
    let id = draws.below(NUMBERS) as i64;
    Call::new(method, id, draws.below(4) as i64, draws.below(4) as i64, 0)
}

fn make_call(
    gate: &mut PointGate,
    held: &mut Calls,
    draws: &mut Draws,
    counts: &mut Counts,
    worker: u32,
    iter: u64,
) -> Result<(), NoMemory> {
    let call = drawn_call(draws);
    match gate.call(worker, iter, ITEM, call) {
        Ok(reply) => {
            counts.admitted = counts.admitted.saturating_add(1);
            held.live.push(Held {
                worker,
                iter,
                call,
                reply,
            })?;
        }
        Err(_) => counts.refused = counts.refused.saturating_add(1),
    }
    Ok(())
}

fn releases(gate: &mut PointGate, worker: u32, iter: u64) {
    let number = gate.mark();
    if number < u64::MAX {
        gate.release(worker, iter, number);
    }
}

fn undoes(
    gate: &mut PointGate,
    held: &mut Calls,
    counts: &mut Counts,
    worker: u32,
    iter: u64,
) -> bool {
    match (gate.undo_last(worker, iter), held.undo_last(worker, iter)) {
        (Some((call, reply)), Some(entry)) => {
            counts.undone = counts.undone.saturating_add(1);
            call == entry.call && reply == entry.reply
        }
        (None, None) => true,
        _ => false,
    }
}

fn step(
    alloc: Global,
    gate: &mut PointGate,
    held: &mut Calls,
    draws: &mut Draws,
    counts: &mut Counts,
) -> Result<bool, NoMemory> {
    let worker = draws.below(3) as u32;
    let iter = draws.below(2);
    match draws.below(10) {
        0 | 1 => Ok(undoes(gate, held, counts, worker, iter)),
        2 => {
            counts.released = counts.released.saturating_add(1);
            held.release(alloc, worker, iter)?;
            releases(gate, worker, iter);
            Ok(true)
        }
        _ => {
            make_call(gate, held, draws, counts, worker, iter)?;
            Ok(true)
        }
    }
}

/// A hundred steps of one gate, each of which leaves what is left of the calls.
fn run(alloc: Global, seed: u64, counts: &mut Counts) -> Result<bool, NoMemory> {
    let mut gate = gate_on(alloc, KdPoints::new(alloc))?;
    let mut held = Calls {
        committed: Vec::new(alloc),
        live: Vec::new(alloc),
    };
    let mut draws = Draws::new(seed);
    for _ in 0..100 {
        let same = step(alloc, &mut gate, &mut held, &mut draws, counts)?;
        if !same || !leave(alloc, &held, gate.object())? {
            return Ok(false);
        }
    }
    Ok(true)
}

#[test]
fn gates_on_points_leave_what_is_left_of_the_calls(rt: HostRuntime) -> Result<(), Fail> {
    let mut counts = Counts {
        admitted: 0,
        refused: 0,
        undone: 0,
        released: 0,
    };
    for seed in 0..200 {
        assert!(rt; run(rt.alloc(), seed, &mut counts)?);
    }
    assert!(rt; counts.admitted > 4000 && counts.refused > 2000);
    assert!(rt; counts.undone > 1000 && counts.released > 1000);
    Ok(())
}
