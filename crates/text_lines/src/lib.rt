//! Lines, fields and numbers of a text, as slices of its bytes: what every text that Galois reads is made of.
//!
//! While there are bytes left, `let (line, rest) = first_line(text);` takes a line. `next_field(line)` is its first field
//! and what follows it, or `None` where there is none, and `number(field)` the number that a field spells, or `None`.
//! Nothing is copied. `specs/` says what the lines and the fields of a text are.
#![tactic(auto)]

mod fields;
mod lines;
mod numbers;

pub use fields::{is_blank, next_field};
pub use lines::first_line;
pub use numbers::number;
