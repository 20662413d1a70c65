ghost use Rattle.std.specs.Prelude.{◌≡◌, ℕ, [], false, OnOk, OnErr};
ghost use Rattle.commit_book.specs.BookViews.{Hold, is_held, held_by, with_hold, without_iteration, without_item_held, is_named_in};

use gx_base::{Item, NoMemory};
use std::alloc::Global;
use std::collections::BTreeMap;
use std::marker::Model;

/// An iteration that holds an item: a worker with one of its numbers.
#[derive(Clone, Copy, Drop)]
pub struct Holder {
    pub worker: u32,
    pub iter: u64,
}

/// Who holds which item. An item is held by one iteration, and an iteration holds one item.
#[derive(Drop)]
pub struct Holds {
    holders: BTreeMap<Item, Holder>,
}

impl Model for Holds {
    ghost use Rattle.std.specs.Prelude.{List};
    ghost use Rattle.std.specs.Coded.{coded_list};
    ghost use Rattle.commit_book.specs.BookViews.{Hold, hold_code};
    ghost use Rattle.commit_book.specs.StoredBooks.{holds_of};
    ghost use Rattle.commit_book.specs.LawfulBooks.{AreHeldApart};

    ghost Value = { List Hold };

    ghost coded = { coded_list hold_code };

    ghost view = { λ holds. holds_of holds.holders.entries };

    ghost invariant = { λ holds. AreHeldApart (holds_of holds.holders.entries) };
}

impl Holds {
    /// No holds. It takes no memory.
    pub fn new(alloc: Global) -> Holds
        ensures { result ≡ [] }
    {
        Holds {
            holders: BTreeMap::new(alloc),
        }
    }

    pub fn has(&self, item: Item) -> bool
        ensures { result ≡ is_held self.now item }
    {
        self.holders.contains_key(&item)
    }

    /// What an iteration holds.
    pub fn held_by(&self, worker: u32, iter: u64) -> Option<Item>
        ensures { result ≡ held_by self.now worker iter }
    {
        for (item, holder) in self.holders.iter() {
            if holder.worker == worker && holder.iter == iter {
                return Some(*item);
            }
        }
        None
    }

    /// Holds are kept without names. For proofs: it does nothing.
    pub fn nobody_is_named(&self)
        ensures { (worker iter : ℕ) → is_named_in self.now worker iter ≡ false }
    {
        let _holders = self.holders.len();
    }

    /// Ends the hold of an item. It is no fault if there is none.
    pub fn end_item(&mut self, item: Item)
        ensures { self.new ≡ without_item_held self.old item }
    {
        self.holders.remove(&item);
    }

    /// Ends the hold of an iteration. It is no fault if there is none.
    pub fn end_iteration(&mut self, worker: u32, iter: u64)
        ensures { self.new ≡ without_iteration self.old worker iter }
    {
        if let Some(item) = self.held_by(worker, iter) {
            self.holders.remove(&item);
        }
    }

    /// An iteration holds an item that none holds, in place of what it held.
    pub fn give(&mut self, worker: u32, iter: u64, item: Item) -> Result<(), NoMemory>
        requires { is_held self.old item ≡ false }
        ensures ok { OnOk result (self.new ≡ with_hold (without_iteration self.old worker iter) (record { worker = worker; iter = iter; item = item; named = false })) }
        ensures err { OnErr result (self.new ≡ self.old) }
    {
        let before = self.held_by(worker, iter);
        self.holders.insert(item, Holder { worker, iter })?;
        if let Some(held) = before {
            self.holders.remove(&held);
        }
        Ok(())
    }
}
