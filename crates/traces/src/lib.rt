//! The text of a trace: a line for each turn of a run, and one for each conflict that says what was in the way.
//!
//! `put_trace(&mut text, &trace, true, false)?` adds the lines of the turns at the end of the bytes `text`.
//! `specs/Traces.antt` says what each line is.
#![tactic(auto)]

mod events;
mod trace;

pub use trace::put_trace;
