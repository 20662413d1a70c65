//! Lock modes for tables of simple conditions. A method as a whole, or one value of its calls, is what a call
//! locks; modes say which locks exclude each other, so that two calls clash exactly where their row is false.
//!
//! Start at `compile`, which makes the modes of a table, and `reduce`, which makes them few. Ask `Modes::needs`
//! for what a call locks, and `Modes::compatible` whether two locks on one value exclude each other.
//! `specs/LockModes.antt` says when two calls clash, `specs/Compiled.antt` and `specs/Reduced.antt` which modes
//! there are. `laws` has the promise, `reduced_laws` what else holds.
#![tactic(auto)]

mod compiling;
pub mod laws;
mod members;
mod modes;
pub mod reduced_laws;
mod reducing;
mod wants;

pub use compiling::{CompileRefuse, compile};
pub use modes::{Modes, Need};
pub use reducing::reduce;
