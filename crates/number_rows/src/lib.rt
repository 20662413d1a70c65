//! Numbers by key, 0 where none was written, over a hashed map. A row is a presence mark: once a key
//! has its row, its number is written again without memory. A row that holds 0 is dead, and what it
//! takes up is given back only by `tidy`.
//!
//! `NumberRows::new(alloc)` has no rows; `rows.write(key, number)?` writes, `rows.value(key)` reads, `rows.has_row(key)`
//! asks for the row, and `rows.rewrite(key, number)` writes in it. `specs/NumbersAsRows.antt` says which rows of an abstract
//! state such numbers are.
#![tactic(auto)]

mod rows;

pub use rows::{LEAST_TIDIED, NumberRows};
