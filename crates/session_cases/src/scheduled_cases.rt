//! Runs by schedules beside the plain machine, turn by turn, and then the order that came out beside the reference runner.

ghost use Rattle.std.specs.Prelude.{◌≤◌, IfOk};
ghost use Rattle.speculation.specs.ScheduledRuns.{AllBelow};

use crate::networks::{Draws, add_turn, drawn_network, new_rooms, plain_start};
use crate::plain_machine::{PlainBook, PlainEvent, PlainHold, PlainWorker};
use crate::plain_rooms::{LiveCall, PlainRoom};
use commit_book::{BodyLog, Commit, Operator, Worklist, commit_item};
use flow_graph::{EXCESS, FLOW, FlowShard, HEIGHT};
use gate_core::{Gate, ScanScreen};
use gx_base::{Entry, NoMemory};
use iterate::{Event, Turn, play};
use preflow_push::{Discharge, Network, start};
use rooms::Value;
use std::alloc::Global;
use std::test::Fail;

fn is_entry(entry: &Entry, held: LiveCall) -> bool {
    entry.worker == held.worker
        && entry.iter == held.iter
        && entry.call == held.call
        && entry.reply.p == held.reply
}

fn is_same(event: Event, plain: PlainEvent) -> bool {
    match (event, plain) {
        (Event::Take { item }, PlainEvent::Take(other)) => item == other,
        (Event::Idle, PlainEvent::Idle) => true,
        (Event::Call { room, call, reply }, PlainEvent::Call(place, made)) => {
            room == place && call == made.call && reply.p == made.reply
        }
        (Event::Conflict { room, told }, PlainEvent::Conflict(place, held, asked)) => {
            room == place
                && is_entry(&told.held, held)
                && told.asked == asked.call
                && told.would.p == asked.reply
        }
        (Event::Undo { room, call }, PlainEvent::Undo(place, undone)) => {
            room == place && call == undone
        }
        (Event::Commit { number }, PlainEvent::Commit(count)) => number == count,
        _ => false,
    }
}

/// How many conflicts there were, and how many runs differ from the plain machine's or the reference runner's.
#[derive(Clone, Copy, Drop)]
struct Counts {
    conflicts: u64,
    differing: u64,
}

impl Counts {
    fn new() -> Counts {
        Counts {
            conflicts: 0,
            differing: 0,
        }
    }

    fn note(&mut self, event: PlainEvent) {
        if let PlainEvent::Conflict(..) = event {
            self.conflicts = self.conflicts.saturating_add(1);
        }
    }
}

/// A turn of the plain machine.
#[derive(Clone, Copy, Drop)]
struct PlainTurn {
    worker: u32,
    event: PlainEvent,
}

/// The plain machine of a network with its workers, and its turns so far.
#[derive(Drop)]
struct PlainRun {
    rooms: Vec<PlainRoom>,
    book: PlainBook,
    workers: Vec<PlainWorker<Discharge>>,
    turns: Vec<PlainTurn>,
}

impl PlainRun {
    fn new(alloc: Global, net: &Network, count: u32) -> Result<PlainRun, NoMemory> {
        let (rooms, ready) = plain_start(alloc, net)?;
        let mut workers = Vec::new(alloc);
        for worker in 0..count {
            workers.push(PlainWorker::new(alloc, worker))?;
        }
        Ok(PlainRun {
            rooms,
            book: PlainBook::new(alloc, &ready)?,
            workers,
            turns: Vec::new(alloc),
        })
    }

    fn turn(&mut self, alloc: Global, op: &Discharge, worker: u32) -> Result<(), NoMemory> {
        if let Some(plain) = self.workers.get_mut(worker as usize) {
            let event = plain.turn(alloc, op, &mut self.book, &mut self.rooms)?;
            self.turns.push(PlainTurn { worker, event })?;
        }
        Ok(())
    }

    fn follow(&mut self, alloc: Global, op: &Discharge, schedule: &[u32]) -> Result<(), NoMemory> {
        for worker in schedule {
            if self.book.ready.is_empty() {
                return Ok(());
            }
            self.turn(alloc, op, *worker)?;
        }
        Ok(())
    }

    fn drain(&mut self, alloc: Global) -> Result<(), NoMemory> {
        for plain in self.workers.iter_mut() {
            let worker = plain.worker();
            for event in plain.drain(alloc, &mut self.book, &mut self.rooms)? {
                self.turns.push(PlainTurn { worker, event })?;
            }
        }
        Ok(())
    }

    /// Worker 0 goes on alone. Its turns are not kept.
    fn alone(&mut self, alloc: Global, op: &Discharge) -> Result<(), NoMemory> {
        for _ in 0..1_000_000u32 {
            if self.book.ready.is_empty() {
                return Ok(());
            }
            if let Some(plain) = self.workers.get_mut(0) {
                let _event = plain.turn(alloc, op, &mut self.book, &mut self.rooms)?;
            }
        }
        Ok(())
    }
}

fn are_same(trace: &[Turn], turns: &[PlainTurn]) -> bool {
    if trace.len() != turns.len() {
        return false;
    }
    for (place, (turn, plain)) in trace.iter().zip(turns).enumerate() {
        if turn.number != place as u64
            || turn.worker != plain.worker
            || !is_same(turn.event, plain.event)
        {
            return false;
        }
    }
    true
}

/// Whether a gate is as a plain room: no call is uncommitted, and its numbers are these.
fn is_room(gate: &Gate<FlowShard, ScanScreen>, room: &PlainRoom, last: i64) -> bool {
    let shard = gate.object();
    let mut same = gate.live().is_empty()
        && room.live.is_empty()
        && gate.done().len() as u64 == room.done;
    for number in 1..last {
        same = same
            && shard.height(number) == room.number(HEIGHT, number)
            && shard.excess(number) == room.number(EXCESS, number)
            && shard.flow(number) == room.number(FLOW, number);
    }
    same
}

fn is_order(commits: &[Commit], order: &[PlainHold]) -> bool {
    if commits.len() != order.len() {
        return false;
    }
    for (commit, plain) in commits.iter().zip(order) {
        if !plain.is(commit.worker, commit.iter, commit.item) {
            return false;
        }
    }
    true
}

/// Whether the values at the end are those of the plain machine.
fn ends_so(values: &[Value<FlowShard, ScanScreen>], run: &PlainRun, last: i64) -> bool {
    let mut same = values.len() == run.rooms.len().saturating_add(1);
    for (place, value) in values.iter().enumerate() {
        same = same
            && match (value, run.rooms.get(place)) {
                (Value::Object(gate), Some(room)) => is_room(gate, room, last),
                (Value::Book(book), None) => book.is_empty()
                    && is_order(book.commits(), &run.book.order),
                _ => false,
            };
    }
    same
}

/// Whether the bodies one after another in this order, on plain objects, end so.
fn follows(
    alloc: Global,
    net: &Network,
    op: &Discharge,
    run: &PlainRun,
    last: i64,
) -> Result<bool, NoMemory> {
    let (mut shards, ready) = start(alloc, net)?;
    if op.rooms() as usize != shards.len() {
        return Ok(false);
    }
    let mut worklist = Worklist::new(alloc);
    worklist.insert_all(&ready)?;
    let mut outcome = BodyLog::new(alloc);
    for commit in &run.book.order {
        if !worklist.has(commit.item()) {
            return Ok(false);
        }
        commit_item(op, commit.item(), &mut shards, &mut worklist, &mut outcome)?;
    }
    let mut same = worklist.is_empty();
    for (shard, room) in shards.iter().zip(&run.rooms) {
        for number in 1..last {
            same = same
                && shard.height(number) == room.number(HEIGHT, number)
                && shard.excess(number) == room.number(EXCESS, number)
                && shard.flow(number) == room.number(FLOW, number);
        }
    }
    Ok(same)
}

fn drawn_schedule(
    alloc: Global,
    workers: u32,
    turns: u64,
    draws: &mut Draws,
) -> Result<Vec<u32>, NoMemory>
    requires { 1 ≤ workers }
    ensures { IfOk result (λ schedule. AllBelow schedule.items workers) }
{
    let mut schedule = Vec::new(alloc);
    for _ in 0..turns {
        add_turn(&mut schedule, workers, draws.below(workers as u64) as u32)?;
    }
    Ok(schedule)
}

fn run(
    alloc: Global,
    net: &Network,
    workers: u32,
    schedule: &[u32],
    counts: &mut Counts,
) -> Result<(), NoMemory>
    requires workers { 1 ≤ workers }
    requires schedule { AllBelow schedule.now workers }
{
    let op = Discharge::new(alloc, net)?;
    let mut plain = PlainRun::new(alloc, net, workers)?;
    plain.follow(alloc, &op, schedule)?;
    plain.drain(alloc)?;
    for turn in &plain.turns {
        counts.note(turn.event);
    }
    let rooms = new_rooms(alloc, net)?;
    let same = match play(alloc, rooms, &op, workers, schedule) {
        Ok(played) => {
            let traced = are_same(&played.trace, &plain.turns);
            plain.alone(alloc, &op)?;
            let last = net.nodes.max(net.arcs.len() as i64).saturating_add(1);
            traced
                && ends_so(&played.values, &plain, last)
                && follows(alloc, net, &op, &plain, last)?
        }
        Err(_) => false,
    };
    if !same {
        counts.differing = counts.differing.saturating_add(1);
    }
    Ok(())
}

#[test]
fn random_schedules(rt: HostRuntime) -> Result<(), Fail> {
    let mut counts = Counts::new();
    let mut draws = Draws::new(7);
    for round in 0..40u32 {
        let workers = 2 + round % 7;
        let net = drawn_network(rt.alloc(), 5 + round % 8, &mut draws)?;
        let schedule = drawn_schedule(rt.alloc(), workers, 40 + draws.below(800), &mut draws)?;
        run(rt.alloc(), &net, workers, &schedule, &mut counts)?;
    }
    assert_eq!(rt; counts.differing, 0);
    assert!(rt; counts.conflicts > 100);
    Ok(())
}
