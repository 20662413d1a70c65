//! Whole runs by virtual workers.
//!
//! `play(alloc, rooms, &op, workers, &schedule)` is a whole run over rooms that one caller enters for all workers: the turns of a
//! schedule, then the drain, then worker 0 alone. What it answers is the run of the machine that the values were at first
//! (`specs/Plays.antt`), and so serial. Its parts stand in `sole_turns`, `scheduling`, `draining` and `lone`. A turn is
//! `Session::turn` of `sessions`, whose names stand here too.
#![tactic(auto)]

mod draining;
mod lone;
mod plays;
mod scheduling;
mod sole_turns;

pub use plays::{Played, play};
pub use sessions::{Event, Session, Stop, Turn};
