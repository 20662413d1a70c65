//! Shards of a flow network, and the work done for its nodes: calls that are taken back, bodies and a report that were
//! worked by hand. It holds tests alone, by public names, so that no crate below is proved again with them.
#![tactic(auto)]

#[cfg(test)]
mod discharge_cases;
#[cfg(test)]
mod file_cases;
#[cfg(test)]
mod number_cases;
#[cfg(test)]
mod shard_cases;
