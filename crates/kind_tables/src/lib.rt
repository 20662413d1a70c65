//! The tables of conditions that kinds of objects ship, and what is proved of them.
//!
//! `specs/` has one file a kind, and `specs/TablesOfKinds.antt` picks by kind; a kind whose type has its tables in
//! a crate of its own is not among them. `laws` says of every table that stands here that it is valid, how its
//! rows stand to those of the kind's other tables, and which of them a scan of earlier calls can serve.
//!
//! To run there is what the types' crates share. `elsewhere()` of `pair_conditions` is the condition that two calls use
//! different numbers; `precise_row(alloc, Deed::Adds, Deed::Reads)?` of `register_rows` is the row of two deeds with a
//! number, and `simple_row(first, second)` and `rw_row(first, second)` those of the other tables. The table of a kind is
//! a blank one into which its type's crate puts such rows.
#![tactic(auto)]

pub mod laws;
pub mod pair_conditions;
pub mod register_rows;
