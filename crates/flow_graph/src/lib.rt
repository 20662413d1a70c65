//! The shared part of a flow network: the heights and the excesses of its nodes and the flows of its
//! arcs, as an object whose calls can be taken back.
//!
//! `FlowShard::new(alloc)` is a shard of zeros. Its calls go through `SeqType`: `shard.apply(call)?` with a method such as
//! `GAIN` or `RELABEL`, and `shard.undo(call, reply)` takes it back; `height`, `excess` and `flow` read it.
//! `FlowShard::shipped(alloc, Kind::Flow, choice)?` gives a table of conditions, which `kind_tables` has.
#![tactic(auto)]

pub mod laws;
mod numbers;
mod shard;
mod shipping;
mod uses;

pub use shard::FlowShard;
pub use uses::{EXCESS, FLOW, GAIN, HEIGHT, RELABEL, SEND};
