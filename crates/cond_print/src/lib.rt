//! Conditions and their tables, printed.
//!
//! `print_cond(alloc, &cond)?` gives the text of a condition, and `print_table(alloc, kind, &table)?` that of a table: a
//! line with its kind, and one for each pair of the kind's methods. `cond_syntax` says what these texts are, and which of
//! them are read back.
#![tactic(auto)]

mod conditions;
mod tables;
mod terms;

pub use conditions::print_cond;
pub use tables::print_table;
