//! The speculative machine: several workers run bodies over shared gates, interleaved, and each run of
//! it is a serial run in the order of its commits. There is nothing to run.
//!
//! Start with `specs/EventRows.antt`, the table of its events: where each one happens, and what follows.
//! `specs/Machines.antt` has the machine and what a turn makes of it, `specs/ScheduledRuns.antt` whole
//! runs. `laws` says what each run gives; a caller of one of its empty functions may use what it ensures.
#![tactic(auto)]

pub mod laws;
