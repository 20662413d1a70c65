//! Gates. A gate holds a shared object and the log of its calls, committed and uncommitted. It does a
//! call only where the call commutes with every uncommitted one of another iteration.
//!
//! `Gate::new(alloc, object, kind, table, screen)` makes one, where `laws::shipped_tables_serve_gates` shows that a table
//! which the object's type ships may serve, and `ScanScreen::new()` is a screen for every table that isn't GENERAL.
//! `gate.call(worker, iter, item, call)?` does a call or tells what is in its way, `gate.undo_last(worker, iter)` takes
//! an iteration's last call back, `gate.release(worker, iter, number)` commits its calls.
//!
//! `specs/Views.antt` has what contracts see of a gate, `IsLawfulGate`, which holds between any two calls, and what
//! each call makes of a gate. `laws` has what follows.
#![tactic(auto)]

mod entries;
mod gates;
mod homes;
pub mod laws;
mod live;
mod refusals;
mod scanning;
mod screens;

pub use gates::Gate;
pub use gx_base::Entry;
pub use refusals::{GateRefuse, Told};
pub use scanning::ScanScreen;
pub use screens::Screen;
