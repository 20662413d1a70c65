ghost use Rattle.std.specs.Prelude.{◌≡◌, ◌↔◌, ℕ, [], take, IsTrue, IfSome, IfNone, OnOk, OnErr};
ghost use Rattle.gx_base.specs.Worklists.{has_item, is_least, with_item, with_items, without_item, without_items};
ghost use Rattle.commit_book.specs.BookViews.{first_free};
ghost use Rattle.commit_book.specs.LawfulBooks.{AreRising, least_before};

use crate::holds::Holds;
use gx_base::{Item, NoMemory};
use std::alloc::Global;
use std::collections::BTreeSet;
use std::marker::Model;

/// The work items that are ready. An item stands in it once, however often it was inserted.
#[derive(Drop)]
pub struct Worklist {
    items: BTreeSet<Item>,
}

impl Model for Worklist {
    ghost use Rattle.std.specs.Prelude.{List};
    ghost use Rattle.gx_base.specs.declared.items.Item.{Item};

    ghost Value = { List Item };

    ghost view = { λ list. list.items.keys };
}

impl Worklist {
    pub fn new(alloc: Global) -> Worklist
        ensures { result ≡ [] }
    {
        Worklist {
            items: BTreeSet::new(alloc),
        }
    }

    pub fn is_empty(&self) -> bool
        ensures { IsTrue result ↔ (self.now ≡ []) }
    {
        self.items.is_empty()
    }

    /// Makes an item ready. It is no fault if it is so already.
    pub fn insert(&mut self, item: Item) -> Result<(), NoMemory>
        ensures ok { OnOk result (self.new ≡ with_item self.old item) }
        ensures err { OnErr result (self.new ≡ self.old) }
    {
        self.items.insert(item)?;
        Ok(())
    }

    /// Makes each of the items ready. Where memory runs out, only some from the front may be.
    pub fn insert_all(&mut self, items: &[Item]) -> Result<(), NoMemory>
        ensures ok { OnOk result (self.new ≡ with_items self.old items.now) }
        ensures err { OnErr result ((count : ℕ) × (self.new ≡ with_items self.old (take count items.now))) }
    {
        for item in items {
            self.insert(*item)?;
        }
        Ok(())
    }

    pub fn has(&self, item: Item) -> bool
        ensures { result ≡ has_item self.now item }
    {
        self.items.contains(&item)
    }

    /// The least item.
    pub fn least(&self) -> Option<Item>
        ensures ready { IfSome result (λ item. IsTrue (has_item self.now item)) }
        ensures least { IfSome result (λ item. IsTrue (is_least self.now item)) }
        ensures none { IfNone result (self.now ≡ []) }
    {
        match self.items.first() {
            Some(item) => Some(*item),
            None => None,
        }
    }

    /// The least item, where it comes before this one.
    pub fn least_before(&self, item: Item) -> Option<Item>
        ensures { result ≡ least_before self.now item }
    {
        let least = *self.items.first()?;
        if least.cmp(&item).is_lt() {
            Some(least)
        } else {
            None
        }
    }

    /// The least item that is held by no iteration.
    pub fn first_free(&self, holds: &Holds) -> Option<Item>
        ensures { result ≡ first_free holds.now self.now }
    {
        for item in self.items.iter() {
            if !holds.has(*item) {
                return Some(*item);
            }
        }
        None
    }

    /// Makes each of the items ready, and notes in `added` those that weren't so. Where memory runs out only some of the
    /// items are ready, but `added` still has each of these that wasn't so before.
    pub fn insert_noting(&mut self, items: &[Item], added: &mut Vec<Item>) -> Result<(), NoMemory>
        requires { AreRising self.old }
        ensures ok { OnOk result (self.new ≡ with_items self.old items.now) }
        ensures back { without_items self.new added.new.items ≡ self.old }
    {
        added.clear();
        for item in items {
            if !self.has(*item) {
                added.push(*item)?;
                self.insert(*item)?;
            }
        }
        Ok(())
    }

    /// Takes each of the items out.
    pub fn remove_all(&mut self, items: &[Item])
        ensures { self.new ≡ without_items self.old items.now }
    {
        for item in items {
            self.remove(*item);
        }
    }

    /// Takes an item out. It is no fault if it isn't ready.
    pub fn remove(&mut self, item: Item)
        ensures { self.new ≡ without_item self.old item }
    {
        self.items.remove(&item);
    }
}
