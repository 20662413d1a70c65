//! Runs of `cluster` by the top call: worked by hand, and drawn ones by several workers beside the reference runner. It
//! holds tests alone, so that no crate below is proved again with them.
#![tactic(auto)]

#[cfg(test)]
mod drawn_runs;
#[cfg(test)]
mod worked_runs;
