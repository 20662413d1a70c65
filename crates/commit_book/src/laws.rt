//! Laws of books, over what contracts see of a book alone. A caller of one of these functions, which do nothing, may use
//! what it ensures.

ghost use Rattle.std.specs.Prelude.{◌≡◌, ◌||◌, ℕ, Bool, true, None, List, length};
ghost use Rattle.std.specs.List.{sum_by};
ghost use Rattle.gx_base.specs.declared.acts.Commit.{Commit};
ghost use Rattle.gx_base.specs.declared.items.Item.{Item};
ghost use Rattle.gx_base.specs.Outcomes.{Outcome, WholeCommit, journal};
ghost use Rattle.gx_base.specs.SerialRuns.{all_counted};
ghost use Rattle.commit_book.specs.BookViews.{BookView, new_book, next_free, hold, put_back, can_name, name_off, is_named, commit, is_in_turn};
ghost use Rattle.commit_book.specs.LawfulBooks.{IsLawfulBook, refusal};

use crate::book::Book;

/// Every book is lawful between its calls.
pub fn books_are_lawful(book: &Book)
    ensures { IsLawfulBook book.now }
{
    let _commits = book.commits();
}

/// A new book is lawful.
pub fn new_books_are_lawful()
    ensures { (ordered : Bool) (ready : List Item) → IsLawfulBook (new_book ordered ready) }
{}

/// What changes holds and names alone keeps a book lawful.
pub fn holds_keep_books()
    ensures next_free { (b : BookView) (worker iter : ℕ) → IsLawfulBook b → IsLawfulBook (next_free b worker iter) }
    ensures hold { (b : BookView) (worker iter : ℕ) (item : Item) → IsLawfulBook b → IsLawfulBook (hold b worker iter item) }
    ensures put_back { (b : BookView) (worker iter : ℕ) → IsLawfulBook b → IsLawfulBook (put_back b worker iter) }
    ensures name_off { (b : BookView) (worker iter : ℕ) (by : Item) → IsLawfulBook b → IsLawfulBook (name_off b worker iter by) }
{}

/// After a call that names an iteration it is named exactly where it could be, or was named before.
pub fn names_are_kept()
    ensures { (b : BookView) (worker iter : ℕ) (by : Item) → is_named (name_off b worker iter by) worker iter ≡ (can_name b worker iter by || is_named b worker iter) }
{}

/// A commit that isn't refused keeps a book lawful.
pub fn commits_keep_books()
    ensures { (b : BookView) (worker iter : ℕ) (item : Item) (o : Outcome) → IsLawfulBook b → refusal b item (length o.steps) ≡ None → IsLawfulBook (commit b worker iter item o) }
{}

/// An item commits only where it may: it is ready, and in an ordered book no ready item is before it.
pub fn commits_are_in_turn()
    ensures { (b : BookView) (item : Item) (steps : ℕ) → IsLawfulBook b → refusal b item steps ≡ None → is_in_turn b item ≡ true }
{}

/// The numbers of steps of the commits add up to the length of the journal.
pub fn steps_add_up()
    ensures { (commits : List WholeCommit) → sum_by (λ (c : Commit). c.steps) (all_counted commits) ≡ length (journal commits) }
{}
