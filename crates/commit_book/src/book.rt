ghost use Rattle.std.specs.Prelude.{◌≡◌, ℕ, false, [], length, IsTrue, ◌↔◌, OnOk, OnErr, IfOk};
ghost use Rattle.gx_base.specs.Outcomes.{journal};
ghost use Rattle.gx_base.specs.SerialRuns.{all_counted};
ghost use Rattle.gx_base.specs.Worklists.{has_item};

use crate::ledger::Ledger;
use crate::refusals::CommitRefuse;
use gx_base::{Commit, Item, NoMemory, Step};
use std::alloc::Global;
use std::marker::Model;

/// Which items are ready, which iteration holds which of them, and what has committed.
#[derive(Drop)]
pub struct Book {
    // Behind a pointer, since books are moved in and out of their place at each turn. None is a book without items.
    ledger: Option<Box<Ledger>>,
}

impl Model for Book {
    ghost use Rattle.commit_book.specs.BookViews.{BookView, book_code};
    ghost use Rattle.commit_book.specs.StoredBooks.{book_with};

    ghost Value = { BookView };

    ghost coded = { book_code };

    ghost view = { λ b. book_with b.ledger };
}

#[tactic(auto, using(crate::proofs::books::LawfulLemmas::new_lawful), unfolding(gx_base::specs::Worklists::with_items))]
impl Book {
    ghost use Rattle.commit_book.specs.BookViews.{free_item, new_book, next_free, put_back, is_named, commit};
    ghost use Rattle.commit_book.specs.LawfulBooks.{IsLawfulBook, IsRefusedBy, refusal};

    /// A book with no items, for a place that a book is taken from. It takes no memory.
    pub fn empty(_alloc: Global) -> Book
        ensures { result ≡ new_book false [] }
    {
        Book { ledger: None }
    }

    /// A book with these items ready. In an ordered one, items commit in their order.
    pub fn new(alloc: Global, ordered: bool, ready: &[Item]) -> Result<Book, NoMemory>
        ensures { IfOk result (λ book. book ≡ new_book ordered ready.now) }
    {
        let ledger = Ledger::new(alloc, ordered, ready)?;
        let boxed = Box::new(alloc, ledger)?;
        Ok(Book {
            ledger: Some(boxed),
        })
    }

    /// Whether items commit in their order.
    pub fn ordered(&self) -> bool
        ensures { result ≡ self.now.ordered }
    {
        match &self.ledger {
            Some(ledger) => ledger.ordered(),
            None => false,
        }
    }

    /// Whether nothing is ready.
    pub fn is_empty(&self) -> bool
        ensures { IsTrue result ↔ (self.now.ready ≡ []) }
    {
        match &self.ledger {
            Some(ledger) => ledger.is_empty(),
            None => true,
        }
    }

    pub fn is_ready(&self, item: Item) -> bool
        ensures { result ≡ has_item self.now.ready item }
    {
        match &self.ledger {
            Some(ledger) => ledger.is_ready(item),
            None => false,
        }
    }

    /// The commits, in their order.
    pub fn commits(&self) -> &[Commit]
        ensures commits { result.now ≡ all_counted self.now.commits }

        // What holds of every book between its calls.
        ensures lawful { IsLawfulBook self.now }
    {
        match &self.ledger {
            Some(ledger) => ledger.commits(),
            None => &[],
        }
    }

    /// The steps of all commits, in their order.
    pub fn journal(&self) -> &[Step]
        ensures { result.now ≡ journal self.now.commits }
    {
        match &self.ledger {
            Some(ledger) => ledger.journal(),
            None => &[],
        }
    }

    /// The least ready item that no iteration holds. This iteration holds it then, in place of what it held.
    pub fn next_free(&mut self, worker: u32, iter: u64) -> Result<Option<Item>, NoMemory>
        ensures item { IfOk result (λ item. item ≡ free_item self.old) }
        ensures ok { OnOk result (self.new ≡ next_free self.old worker iter) }
        ensures err { OnErr result (self.new ≡ self.old) }
    {
        match &mut self.ledger {
            Some(ledger) => ledger.next_free(worker, iter),
            None => Ok(None),
        }
    }

    /// The iteration holds nothing any more. It is no fault if it held nothing. Takes no memory.
    pub fn put_back(&mut self, worker: u32, iter: u64)
        ensures { self.new ≡ put_back self.old worker iter }
    {
        match &mut self.ledger {
            Some(ledger) => ledger.put_back(worker, iter),
            None => {}
        }
    }

    /// No call of a book names an iteration, so none is named. For proofs: it does nothing.
    pub fn nobody_is_named(&self)
        ensures { (worker iter : ℕ) → is_named self.now worker iter ≡ false }
    {
        match &self.ledger {
            Some(ledger) => ledger.nobody_is_named(),
            None => {}
        }
    }

    /// Commits an item with the steps and the pushes of its body, and answers how many had committed before.
    pub fn commit(
        &mut self,
        worker: u32,
        iter: u64,
        item: Item,
        log: &[Step],
        pushes: &[Item],
    ) -> Result<u64, CommitRefuse>
        ensures number { IfOk result (λ number. number ≡ length self.old.commits) }
        ensures ok { OnOk result (self.new ≡ commit self.old worker iter item (record { steps = log.now; pushes = pushes.now; withdrawn = [] })) }
        ensures refused { IsRefusedBy (refusal self.old item (length log.now)) result }
        ensures err { OnErr result (self.new ≡ self.old) }
    {
        match &mut self.ledger {
            Some(ledger) => ledger.commit(worker, iter, item, log, pushes),
            None => Err(CommitRefuse::NotReady),
        }
    }
}
