//! What gates over sets and cells are to answer: numbers by key as they were committed, and the list of uncommitted
//! calls. A number is found by going through that list, so that taking a call back is to strike it out.

ghost use Rattle.std.specs.Prelude.{◌<◌, IfSome, vec_len};

use gx_base::Call;
use shared_sets::{cells_methods, set_methods};
use std::alloc::{AllocError, Global};
use std::collections::HashMap;

/// An uncommitted call.
#[derive(Clone, Copy, Drop)]
pub struct LiveCall {
    pub worker: u32,
    pub iter: u64,
    pub call: Call,
    pub reply: i64,
}

impl LiveCall {
    fn is_of(&self, worker: u32, iter: u64) -> bool {
        self.worker == worker && self.iter == iter
    }
}

/// The committed numbers by key, where a set has 1 for each number that is in it, and the uncommitted calls.
#[derive(Drop)]
pub struct Model {
    committed: HashMap<i64, i64>,
    live: Vec<LiveCall>,
}

impl Model {
    pub fn new(alloc: Global) -> Model {
        Model {
            committed: HashMap::new(alloc),
            live: Vec::new(alloc),
        }
    }

    pub fn live_count(&self) -> usize {
        self.live.len()
    }

    /// The number of a key after all uncommitted calls.
    pub fn number(&self, key: i64) -> i64 {
        let mut number = self.committed.get(&key).copied().unwrap_or(0);
        for held in &self.live {
            if held.call.a == key {
                number = after(held.call, number).0;
            }
        }
        number
    }

    /// What a call would reply.
    pub fn reply(&self, call: Call) -> i64 {
        after(call, self.number(call.a)).1
    }

    /// The first uncommitted call of another iteration that doesn't commute with this one.
    pub fn in_the_way(&self, asked: LiveCall) -> Option<LiveCall> {
        for held in &self.live {
            if !held.is_of(asked.worker, asked.iter) && !commute(held, &asked) {
                return Some(*held);
            }
        }
        None
    }

    pub fn admit(&mut self, asked: LiveCall) -> Result<(), AllocError> {
        self.live.push(asked)?;
        Ok(())
    }

    /// Strikes out the last uncommitted call of an iteration.
    pub fn undo_last(&mut self, worker: u32, iter: u64) -> Option<LiveCall> {
        let place = self.last_place(worker, iter)?;
        Some(self.live.remove(place))
    }

    fn last_place(&self, worker: u32, iter: u64) -> Option<usize>
        ensures { IfSome result (λ place. place < vec_len self.now.live) }
    {
        for place in (0..self.live.len()).rev() {
            if self.live[place].is_of(worker, iter) {
                return Some(place);
            }
        }
        None
    }

    /// Commits the uncommitted calls of an iteration.
    pub fn release(&mut self, alloc: Global, worker: u32, iter: u64) -> Result<(), AllocError> {
        let mut rest = Vec::new(alloc);
        for held in &self.live {
            if held.is_of(worker, iter) {
                let number = self.committed.get(&held.call.a).copied().unwrap_or(0);
                self.committed
                    .insert(held.call.a, after(held.call, number).0)?;
            } else {
                rest.push(*held)?;
            }
        }
        self.live = rest;
        Ok(())
    }
}

/// The number after a call, and what the call replies.
fn after(call: Call, number: i64) -> (i64, i64) {
    match call.method {
        set_methods::ADD => (1, if number == 0 { 1 } else { 0 }),
        set_methods::REMOVE => (0, number),
        set_methods::CONTAINS | cells_methods::READ => (number, number),
        cells_methods::ADD => (number.wrapping_add(call.b), 0),
        cells_methods::SET => (call.b, number),
        _ => (number, 0),
    }
}

/// Whether a call and a later one, with their replies, commute.
fn commute(first: &LiveCall, second: &LiveCall) -> bool {
    if first.call.a != second.call.a {
        return true;
    }
    match (first.call.method, second.call.method) {
        (set_methods::CONTAINS, set_methods::CONTAINS) => true,
        (set_methods::ADD, set_methods::ADD) | (set_methods::REMOVE, set_methods::REMOVE) => {
            first.reply == 0 && second.reply == 0
        }
        (set_methods::ADD | set_methods::REMOVE, set_methods::CONTAINS) => first.reply == 0,
        (set_methods::CONTAINS, set_methods::ADD | set_methods::REMOVE) => second.reply == 0,
        (cells_methods::READ, cells_methods::READ) | (cells_methods::ADD, cells_methods::ADD) => {
            true
        }
        (cells_methods::READ | cells_methods::SET, cells_methods::ADD) => second.call.b == 0,
        (cells_methods::ADD, cells_methods::READ | cells_methods::SET) => first.call.b == 0,
        (cells_methods::READ, cells_methods::SET) => first.reply == second.call.b,
        (cells_methods::SET, cells_methods::READ) => first.reply == first.call.b,
        (cells_methods::SET, cells_methods::SET) => {
            first.call.b == second.call.b && first.reply == first.call.b
        }
        _ => false,
    }
}
