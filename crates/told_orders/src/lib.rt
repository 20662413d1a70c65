//! Reports tell their orders. There is nothing to run.
//!
//! `specs/ItemLines.antt` has when items have lines of their own, and `laws` that such lines tell the order in which they
//! stand; a caller of its empty function may use what it ensures.
#![tactic(auto)]

pub mod laws;
