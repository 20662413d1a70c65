//! Points beside a list of points that is walked from end to end: drawn sets of every shape, worked cases, deep and
//! equal points, and gates on points with calls taken back and committed in any order. It holds tests alone, so that
//! no crate below is proved again with them.
#![tactic(auto)]

#[cfg(test)]
mod draws;
#[cfg(test)]
mod gate_cases;
#[cfg(test)]
mod gate_runs;
#[cfg(test)]
mod list_of_points;
#[cfg(test)]
mod set_runs;
#[cfg(test)]
mod tree_cases;
