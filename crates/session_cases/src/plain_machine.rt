//! What workers over gates are to do, turn by turn, in an unordered loop over rooms that nobody else holds. It is written
//! from the table of a worker's states, over plain rooms.

use crate::plain_rooms::{LiveCall, PlainRoom};
use commit_book::Operator;
use gx_base::{Act, Call, Item, NoMemory, Reply, Room, Step};
use std::alloc::Global;
use std::collections::BTreeSet;
use std::mem;

/// What happens in a turn.
#[derive(Clone, Copy, Drop)]
pub enum PlainEvent {
    Take(Item),
    Idle,
    Call(Room, LiveCall),
    /// The call that is held, and the one that was asked with the reply that it would have had.
    Conflict(Room, LiveCall, LiveCall),
    Undo(Room, Call),
    Commit(u64),
}

#[derive(Drop)]
enum WorkerState<St: Drop> {
    Idle,
    Running(St, Option<Reply>),
    Undoing,
}

/// A worker with its iteration.
#[derive(Drop)]
pub struct PlainWorker<O: Operator> {
    worker: u32,
    iter: u64,
    next_iter: u64,
    item: Item,
    state: WorkerState<O::St>,
    log: Vec<Step>,
    pushes: Vec<Item>,
}

/// An item that an iteration holds.
#[derive(Clone, Copy, Drop)]
pub struct PlainHold {
    worker: u32,
    iter: u64,
    item: Item,
}

/// What is ready, what is held, and what has committed: for each commit its worker, its iteration and its item.
#[derive(Drop)]
pub struct PlainBook {
    pub ready: BTreeSet<Item>,
    holds: Vec<PlainHold>,
    pub order: Vec<PlainHold>,
}

impl PlainHold {
    pub fn is(&self, worker: u32, iter: u64, item: Item) -> bool {
        self.worker == worker && self.iter == iter && self.item == item
    }

    pub fn item(&self) -> Item {
        self.item
    }
}

impl PlainBook {
    pub fn new(alloc: Global, ready: &[Item]) -> Result<PlainBook, NoMemory> {
        let mut items = BTreeSet::new(alloc);
        for item in ready {
            items.insert(*item)?;
        }
        Ok(PlainBook {
            ready: items,
            holds: Vec::new(alloc),
            order: Vec::new(alloc),
        })
    }

    fn is_item_held(&self, item: Item) -> bool {
        for hold in &self.holds {
            if hold.item == item {
                return true;
            }
        }
        false
    }

    fn first_free(&self) -> Option<Item> {
        for item in self.ready.iter() {
            if !self.is_item_held(*item) {
                return Some(*item);
            }
        }
        None
    }

    fn put_back(&mut self, worker: u32, iter: u64) {
        self.holds
            .retain(|hold| hold.worker != worker || hold.iter != iter);
    }
}

impl<O: Operator> PlainWorker<O> {
    pub fn new(alloc: Global, worker: u32) -> PlainWorker<O> {
        PlainWorker {
            worker,
            iter: 0,
            next_iter: 0,
            item: Item::new(0, 0, 0, 0),
            state: WorkerState::Idle,
            log: Vec::new(alloc),
            pushes: Vec::new(alloc),
        }
    }

    pub fn worker(&self) -> u32 {
        self.worker
    }

    pub fn is_idle(&self) -> bool {
        match self.state {
            WorkerState::Idle => true,
            _ => false,
        }
    }

    /// One turn.
    pub fn turn(
        &mut self,
        alloc: Global,
        op: &O,
        book: &mut PlainBook,
        rooms: &mut [PlainRoom],
    ) -> Result<PlainEvent, NoMemory> {
        match mem::replace(&mut self.state, WorkerState::Idle) {
            WorkerState::Idle => self.take(op, book),
            WorkerState::Running(st, last) => self.run_on(alloc, op, book, rooms, st, last),
            WorkerState::Undoing => Ok(self.undo(book, rooms)),
        }
    }

    fn take(&mut self, op: &O, book: &mut PlainBook) -> Result<PlainEvent, NoMemory> {
        let Some(item) = book.first_free() else {
            return Ok(PlainEvent::Idle);
        };
        self.iter = self.next_iter;
        self.next_iter = self.next_iter.saturating_add(1);
        self.item = item;
        self.state = WorkerState::Running(op.begin(item), None);
        book.holds.push(PlainHold {
            worker: self.worker,
            iter: self.iter,
            item,
        })?;
        Ok(PlainEvent::Take(item))
    }

    fn run_on(
        &mut self,
        alloc: Global,
        op: &O,
        book: &mut PlainBook,
        rooms: &mut [PlainRoom],
        st: O::St,
        last: Option<Reply>,
    ) -> Result<PlainEvent, NoMemory> {
        let mut st = st;
        let mut last = last;
        for _ in 0..u64::MAX {
            match op.next(&mut st, last) {
                Act::Call { room, call } => return self.ask(book, rooms, st, room, call),
                Act::Push(item) => {
                    self.pushes.push(item)?;
                    last = None;
                }
                Act::Done => return self.commit(alloc, book, rooms),
            }
        }
        Ok(PlainEvent::Idle)
    }

    fn ask(
        &mut self,
        book: &mut PlainBook,
        rooms: &mut [PlainRoom],
        st: O::St,
        room: Room,
        call: Call,
    ) -> Result<PlainEvent, NoMemory> {
        let Some(gate) = rooms.get_mut(room as usize) else {
            return Ok(PlainEvent::Idle);
        };
        let asked = LiveCall {
            worker: self.worker,
            iter: self.iter,
            call,
            reply: gate.reply(call),
        };
        if let Some(held) = gate.in_the_way(asked) {
            self.give_up(book);
            return Ok(PlainEvent::Conflict(room, held, asked));
        }
        gate.live.push(asked)?;
        let reply = Reply::new(asked.reply, 0, 0, 0);
        self.log.push(Step { room, call, reply })?;
        self.state = WorkerState::Running(st, Some(reply));
        Ok(PlainEvent::Call(room, asked))
    }

    /// The iteration undoes its calls, or, where it has none, is over.
    fn give_up(&mut self, book: &mut PlainBook) {
        if self.log.is_empty() {
            self.end(book);
        } else {
            self.state = WorkerState::Undoing;
        }
    }

    fn end(&mut self, book: &mut PlainBook) {
        book.put_back(self.worker, self.iter);
        self.log.clear();
        self.pushes.clear();
        self.state = WorkerState::Idle;
    }

    fn undo(&mut self, book: &mut PlainBook, rooms: &mut [PlainRoom]) -> PlainEvent {
        let Some(step) = self.log.pop() else {
            self.end(book);
            return PlainEvent::Idle;
        };
        if let Some(gate) = rooms.get_mut(step.room as usize) {
            gate.undo_last(self.worker, self.iter);
        }
        self.give_up(book);
        PlainEvent::Undo(step.room, step.call)
    }

    fn commit(
        &mut self,
        alloc: Global,
        book: &mut PlainBook,
        rooms: &mut [PlainRoom],
    ) -> Result<PlainEvent, NoMemory> {
        for gate in rooms.iter_mut() {
            gate.release(alloc, self.worker, self.iter)?;
        }
        let number = book.order.len() as u64;
        book.order.push(PlainHold {
            worker: self.worker,
            iter: self.iter,
            item: self.item,
        })?;
        book.ready.remove(&self.item);
        for item in &self.pushes {
            book.ready.insert(*item)?;
        }
        self.end(book);
        Ok(PlainEvent::Commit(number))
    }

    /// In the drain a live iteration undoes its calls from the last to the first, and is over. The events are given.
    pub fn drain(
        &mut self,
        alloc: Global,
        book: &mut PlainBook,
        rooms: &mut [PlainRoom],
    ) -> Result<Vec<PlainEvent>, NoMemory> {
        let mut events = Vec::new(alloc);
        let count = self.log.len();
        for _ in 0..count {
            events.push(self.undo(book, rooms))?;
        }
        if !self.is_idle() {
            self.end(book);
        }
        Ok(events)
    }
}
