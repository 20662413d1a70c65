//! Screens beside each other, over sets and cells: conflicts that locks tell, worked by hand, and random calls through
//! gates that differ in their screens alone. It holds tests alone, so that no crate below is proved again with them.
#![tactic(auto)]

#[cfg(test)]
mod lock_cases;
#[cfg(test)]
mod screen_gates;
#[cfg(test)]
mod screen_runs;
