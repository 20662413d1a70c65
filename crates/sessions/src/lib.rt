//! Sessions: workers that run the bodies of work items at once, over rooms that hold gates and the book.
//!
//! `Session::new(alloc, worker)` makes one that is idle. Each `session.turn(&mut rooms, &op)` is one event of the
//! speculative machine, on the gates and the book that it was handed out, and leaves what that event makes of them. Where the
//! rooms tell their values, all others are those that they tell. Where a room that it needs is held by another caller, the
//! turn is `Busy` or is cut short there. A turn never waits, and one that takes calls back or releases them takes no memory.
//! After a commit `session.pushed()` has its pushes. `session.leave_off()` has its iteration give up.
//!
//! Start at `Session::turn` in `src/session.rt`. `specs/Places.antt` says when a session may take a turn (`IsFit`) and which
//! place of the machine it stands on, `specs/Turns.antt` what a turn does and answers (`HasTurned`), `specs/SharedTurns.antt`
//! what the machine's turn becomes where a room was held, `specs/TurnMoves.antt` which rooms a turn enters and leaves. Each
//! phase has a file: `taking`, `calling`, `committing`, `undoing`; `entering` is the one that enters and leaves rooms.
#![tactic(auto)]

mod answers;
mod bodies;
mod calling;
mod committing;
mod entering;
mod events;
mod releases;
mod session;
mod taking;
mod undoing;

pub use events::{Event, Stop, Turn};
pub use session::Session;
