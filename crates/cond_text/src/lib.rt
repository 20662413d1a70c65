//! Texts of conditions and of their tables, read.
//!
//! `read_table(alloc, bytes, &wanted)` gives the kind and the table that a text spells, where the kind is one of those
//! wanted, or the text's first fault with its line. What `print_table` writes is read back as a table with the same
//! rows, and what `print_cond` writes as the condition of a row, where conditions are at most 64 deep, constants have at
//! most 18 digits, places of values are at most 7, and state functions stand in tables of domain books alone. What the
//! language is stands in `cond_syntax`; `cond_terms` reads its tokens and comparisons, and `cond_print` prints.
#![tactic(auto)]

mod conditions;
mod drafts;
mod failures;
mod faults;
mod levels;
mod readers;
mod tables;

pub use cond_print::{print_cond, print_table};
pub use faults::TextFault;
pub use tables::read_table;
