ghost use Rattle.std.specs.Prelude.{◌≡◌, ◌≤◌, ℕ, if◌then◌else◌, [], false, length, ◌∷◌, ◌++◌, IsTrue, ◌↔◌, OnOk, OnErr, IfOk};
ghost use Rattle.gx_base.specs.Outcomes.{journal};
ghost use Rattle.gx_base.specs.SerialRuns.{all_counted};
ghost use Rattle.gx_base.specs.Worklists.{has_item, with_items, without_item, without_items};
ghost use Rattle.commit_book.specs.BookViews.{most_steps, without_item_held};
ghost use Rattle.commit_book.specs.LawfulBooks.{AreRising, refusal};
ghost use Rattle.commit_book.specs.StoredBooks.{whole_commit};

use crate::holds::Holds;
use crate::limits::{MOST_COMMITS, MOST_STEPS};
use crate::past::Past;
use crate::refusals::CommitRefuse;
use crate::worklist::Worklist;
use gx_base::{Commit, Item, NoMemory, Step};
use std::alloc::Global;
use std::marker::Model;

/// What a book holds: which items are ready, which iteration holds which of them, and what has committed.
#[derive(Drop)]
pub struct Ledger {
    ordered: bool,
    /// The items that were ready at first.
    first_ready: Vec<Item>,
    ready: Worklist,
    holds: Holds,
    past: Past,
    /// The pushes of a commit that weren't ready before, while it is made.
    added: Vec<Item>,
}

impl Model for Ledger {
    ghost use Rattle.std.specs.Prelude.{[]};
    ghost use Rattle.gx_base.specs.Worklists.{with_items};
    ghost use Rattle.commit_book.specs.BookViews.{BookView, book_code};
    ghost use Rattle.commit_book.specs.LawfulBooks.{IsLawfulBook};

    ghost Value = { BookView };

    ghost coded = { book_code };

    ghost view = { λ b. record { ordered = b.ordered; first_ready = with_items [] b.first_ready.items; ready = b.ready; holds = b.holds; commits = b.past } };

    ghost invariant = { λ b. IsLawfulBook (record { ordered = b.ordered; first_ready = with_items [] b.first_ready.items; ready = b.ready; holds = b.holds; commits = b.past }) };
}

impl Ledger {
    ghost use Rattle.commit_book.specs.BookViews.{free_item, new_book, next_free, put_back, is_named, commit};
    ghost use Rattle.commit_book.specs.LawfulBooks.{IsLawfulBook, IsRefusedBy};

    pub fn new(alloc: Global, ordered: bool, ready: &[Item]) -> Result<Ledger, NoMemory>
        ensures { IfOk result (λ ledger. ledger ≡ new_book ordered ready.now) }
    {
        let mut worklist = Worklist::new(alloc);
        worklist.insert_all(ready)?;
        Ok(Ledger {
            ordered,
            first_ready: Vec::from_slice(alloc, ready)?,
            ready: worklist,
            holds: Holds::new(alloc),
            past: Past::new(alloc),
            added: Vec::new(alloc),
        })
    }

    /// Whether items commit in their order.
    pub fn ordered(&self) -> bool
        ensures { result ≡ self.now.ordered }
    {
        self.ordered
    }

    /// Whether nothing is ready.
    pub fn is_empty(&self) -> bool
        ensures { IsTrue result ↔ (self.now.ready ≡ []) }
    {
        self.ready.is_empty()
    }

    pub fn is_ready(&self, item: Item) -> bool
        ensures { result ≡ has_item self.now.ready item }
    {
        self.ready.has(item)
    }

    /// The commits, in their order.
    pub fn commits(&self) -> &[Commit]
        ensures commits { result.now ≡ all_counted self.now.commits }

        // What holds of every book between its calls.
        ensures lawful { IsLawfulBook self.now }
    {
        self.past.commits()
    }

    /// The steps of all commits, in their order.
    pub fn journal(&self) -> &[Step]
        ensures { result.now ≡ journal self.now.commits }
    {
        self.past.journal()
    }

    /// The least ready item that no iteration holds. This iteration holds it then, in place of what it held.
    pub fn next_free(&mut self, worker: u32, iter: u64) -> Result<Option<Item>, NoMemory>
        ensures item { IfOk result (λ item. item ≡ free_item self.old) }
        ensures ok { OnOk result (self.new ≡ next_free self.old worker iter) }
        ensures err { OnErr result (self.new ≡ self.old) }
    {
        match self.ready.first_free(&self.holds) {
            Some(item) => {
                self.holds.give(worker, iter, item)?;
                Ok(Some(item))
            }
            None => Ok(None),
        }
    }

    /// The iteration holds nothing any more. It is no fault if it held nothing. Takes no memory.
    pub fn put_back(&mut self, worker: u32, iter: u64)
        ensures { self.new ≡ put_back self.old worker iter }
    {
        self.holds.end_iteration(worker, iter);
    }

    /// No call of a book names an iteration, so none is named. For proofs: it does nothing.
    pub fn nobody_is_named(&self)
        ensures { (worker iter : ℕ) → is_named self.now worker iter ≡ false }
    {
        self.holds.nobody_is_named();
    }

    /// Commits an item with the steps and the pushes of its body, and answers how many had committed before.
    pub fn commit(
        &mut self,
        worker: u32,
        iter: u64,
        item: Item,
        log: &[Step],
        pushes: &[Item],
    ) -> Result<u64, CommitRefuse>
        ensures number { IfOk result (λ number. number ≡ length self.old.commits) }
        ensures ok { OnOk result (self.new ≡ commit self.old worker iter item (record { steps = log.now; pushes = pushes.now; withdrawn = [] })) }
        ensures refused { IsRefusedBy (refusal self.old item (length log.now)) result }
        ensures err { OnErr result (self.new ≡ self.old) }
    {
        if let Some(refuse) = why_not(self.ordered, &self.ready, &self.past, item, log.len()) {
            return Err(refuse);
        }
        let number = self.past.commits().len() as u64;
        let commit = Commit {
            worker,
            iter,
            item,
            steps: log.len() as u64,
        };
        if let Err(NoMemory) = take_in(
            &mut self.ready,
            &mut self.added,
            &mut self.past,
            commit,
            log,
            pushes,
        ) {
            self.ready.remove_all(self.added.as_slice());
            return Err(CommitRefuse::NoMemory);
        }
        leave(&mut self.ready, &mut self.holds, item, pushes);
        Ok(number)
    }
}

// Why an item may not commit with so many steps, where it may not.
fn why_not(
    ordered: bool,
    ready: &Worklist,
    past: &Past,
    item: Item,
    steps: usize,
) -> Option<CommitRefuse>
    requires kept { length (journal past.now) ≤ most_steps }
    ensures { result ≡ refusal (record { ordered = ordered; first_ready = []; ready = ready.now; holds = []; commits = past.now }) item steps }
{
    if !ready.has(item) {
        return Some(CommitRefuse::NotReady);
    }
    if ordered && let Some(least) = ready.least_before(item) {
        return Some(CommitRefuse::NotLeast { least });
    }
    if past.commits().len() == MOST_COMMITS {
        return Some(CommitRefuse::Spent);
    }
    if steps > MOST_STEPS - past.journal().len() {
        return Some(CommitRefuse::Kept);
    }
    None
}

// Makes the pushes of a commit ready, and notes the commit. Where memory runs out only some pushes are ready, but `added`
// has each of them that wasn't so before.
fn take_in(
    ready: &mut Worklist,
    added: &mut Vec<Item>,
    past: &mut Past,
    commit: Commit,
    log: &[Step],
    pushes: &[Item],
) -> Result<(), NoMemory>
    requires rising { AreRising ready.old }
    requires steps { commit.steps ≡ length log.now }
    ensures ok { OnOk result ((ready.new ≡ with_items ready.old pushes.now) × (past.new ≡ past.old ++ whole_commit commit log.now pushes.now ∷ [])) }
    ensures err { OnErr result (past.new ≡ past.old) }
    ensures back { without_items ready.new added.new.items ≡ ready.old }
{
    ready.insert_noting(pushes, added)?;
    past.append(commit, log, pushes)
}

// An item that has committed is held no more, and it is ready no more, unless its own body has pushed it.
fn leave(ready: &mut Worklist, holds: &mut Holds, item: Item, pushes: &[Item])
    ensures ready { ready.new ≡ (if has_item pushes.now item then ready.old else without_item ready.old item) }
    ensures holds { holds.new ≡ without_item_held holds.old item }
{
    holds.end_item(item);
    if !is_among(pushes, item) {
        ready.remove(item);
    }
}

fn is_among(items: &[Item], item: Item) -> bool
    ensures { result ≡ has_item items.now item }
{
    for other in items {
        if other.cmp(&item).is_eq() {
            return true;
        }
    }
    false
}
