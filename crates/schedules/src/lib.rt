//! The turns of virtual workers, drawn from a seed.
//!
//! `schedule(alloc, seed, workers, turns)?` is the worker of each of so many turns. `draw(seed, k)` is number k of those
//! that the seed draws, and `sched(seed, k, workers)` the worker of turn k. `specs/Draws.antt` says what they are.
#![tactic(auto)]

mod affine;
mod draws;

pub use draws::{draw, sched, schedule};
