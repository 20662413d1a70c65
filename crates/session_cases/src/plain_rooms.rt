//! What gates over flow shards are to do: numbers as they were committed, and the list of uncommitted calls. A number is
//! found by going through that list, so that taking a call back is to strike it out.

ghost use Rattle.std.specs.Prelude.{◌<◌, IfSome, vec_len};

use flow_graph::{EXCESS, FLOW, GAIN, HEIGHT, RELABEL, SEND};
use gx_base::{Call, NoMemory};
use std::alloc::Global;
use std::collections::HashMap;

/// An uncommitted call of an iteration.
#[derive(Clone, Copy, Drop)]
pub struct LiveCall {
    pub worker: u32,
    pub iter: u64,
    pub call: Call,
    pub reply: i64,
}

impl LiveCall {
    fn is_of(&self, worker: u32, iter: u64) -> bool {
        self.worker == worker && self.iter == iter
    }
}

/// The committed numbers, how many calls have committed, and the uncommitted ones.
#[derive(Drop)]
pub struct PlainRoom {
    committed: HashMap<i64, i64>,
    pub done: u64,
    pub live: Vec<LiveCall>,
}

impl PlainRoom {
    pub fn new(alloc: Global) -> PlainRoom {
        PlainRoom {
            committed: HashMap::new(alloc),
            done: 0,
            live: Vec::new(alloc),
        }
    }

    /// Gives a number its value at the start.
    pub fn begin_with(&mut self, method: u32, number: i64, value: i64) -> Result<(), NoMemory> {
        self.committed.insert(key_of(method, number), value)?;
        Ok(())
    }

    /// The number that a method speaks of, after all uncommitted calls.
    pub fn number(&self, method: u32, number: i64) -> i64 {
        let key = key_of(method, number);
        let mut value = self.committed.get(&key).copied().unwrap_or(0);
        for held in &self.live {
            if key_of(held.call.method, held.call.a) == key {
                value = after(held.call, value).0;
            }
        }
        value
    }

    /// What a call would reply.
    pub fn reply(&self, call: Call) -> i64 {
        after(call, self.number(call.method, call.a)).1
    }

    /// The first uncommitted call of another iteration that doesn't commute with this one.
    pub fn in_the_way(&self, asked: LiveCall) -> Option<LiveCall> {
        for held in &self.live {
            if !held.is_of(asked.worker, asked.iter) && !commute(held, &asked) {
                return Some(*held);
            }
        }
        None
    }

    /// Strikes out the last uncommitted call of an iteration.
    pub fn undo_last(&mut self, worker: u32, iter: u64) {
        if let Some(place) = self.last_place(worker, iter) {
            let _held = self.live.remove(place);
        }
    }

    fn last_place(&self, worker: u32, iter: u64) -> Option<usize>
        ensures { IfSome result (λ place. place < vec_len self.now.live) }
    {
        for place in (0..self.live.len()).rev() {
            if self.live[place].is_of(worker, iter) {
                return Some(place);
            }
        }
        None
    }

    /// Commits the uncommitted calls of an iteration.
    pub fn release(&mut self, alloc: Global, worker: u32, iter: u64) -> Result<(), NoMemory> {
        let mut rest = Vec::new(alloc);
        for held in &self.live {
            if held.is_of(worker, iter) {
                let key = key_of(held.call.method, held.call.a);
                let number = self.committed.get(&key).copied().unwrap_or(0);
                self.committed.insert(key, after(held.call, number).0)?;
                self.done = self.done.saturating_add(1);
            } else {
                rest.push(*held)?;
            }
        }
        self.live = rest;
        Ok(())
    }
}

/// Heights, excesses and flows are kept apart.
fn key_of(method: u32, number: i64) -> i64 {
    let sort = match method {
        HEIGHT | RELABEL => 0,
        EXCESS | GAIN => 1,
        _ => 2,
    };
    number.wrapping_mul(4).wrapping_add(sort)
}

/// The number after a call, and what the call replies.
fn after(call: Call, number: i64) -> (i64, i64) {
    match call.method {
        RELABEL => (call.b, number),
        GAIN | SEND => (number.wrapping_add(call.b), 0),
        _ => (number, number),
    }
}

/// Whether a call and a later one, with their replies, commute.
fn commute(first: &LiveCall, second: &LiveCall) -> bool {
    let (a, b) = (first.call, second.call);
    if key_of(a.method, a.a) != key_of(b.method, b.a) {
        return true;
    }
    match (a.method, b.method) {
        (HEIGHT | EXCESS | FLOW, HEIGHT | EXCESS | FLOW) => true,
        (GAIN | SEND, GAIN | SEND) => true,
        (EXCESS | FLOW, GAIN | SEND) => b.b == 0,
        (GAIN | SEND, EXCESS | FLOW) => a.b == 0,
        (HEIGHT, RELABEL) => first.reply == b.b,
        (RELABEL, HEIGHT) => first.reply == a.b,
        (RELABEL, RELABEL) => a.b == b.b && first.reply == a.b,
        _ => true,
    }
}
