//! What the serial runs of the cluster program come to. There is nothing to run.
//!
//! `specs/ClusterRuns.antt` has what is said of a run, and `laws` that it holds of every run on the points of a file;
//! a caller of one of its empty functions may use what it ensures.
#![tactic(auto)]

pub mod laws;
