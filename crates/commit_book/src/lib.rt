//! Operators, the book of a loop over work items, and the reference runner: the bodies of items one after another on
//! plain objects.
//!
//! Start at `Book` in `src/book.rt`, which keeps the items that are ready, who holds them and what has committed.
//! `specs/BookViews.antt` has what contracts see of a book and what each call makes of it, `specs/LawfulBooks.antt` what
//! holds of it between any two calls, and `laws` what follows.
//!
//! `Book::new` begins with the items that are ready. A worker takes one by `next_free`, runs its body, and either commits it
//! by `commit`, with the steps and the pushes of the body, or gives it back by `put_back`. `commits` and `journal` tell what
//! has committed. `run_serially` needs no book: it takes an operator, the objects and the first ready items.
#![tactic(auto)]

mod body_log;
mod book;
mod holds;
mod homes;
pub mod laws;
mod ledger;
mod limits;
mod operator;
mod past;
mod refusals;
mod serial;
mod worklist;

pub use body_log::BodyLog;
pub use book::Book;
pub use gx_base::{Act, Commit, Step};
pub use limits::{MOST_COMMITS, MOST_STEPS};
pub use operator::Operator;
pub use refusals::CommitRefuse;
pub use serial::{SerialStop, commit_item, order_is_determined, run_serially};
pub use worklist::Worklist;
