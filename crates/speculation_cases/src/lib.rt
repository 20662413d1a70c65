//! Runs of the speculative machine, worked out: its definitions give the turns that were found by hand.
//! There is nothing to run.
#![tactic(auto)]

pub mod laws;
