//! What texts of conditions and of tables are made of: tokens, words, comparisons, and what a line says by its first tokens.
//!
//! `next_token(line)` gives the first token of a line and what follows it. `said_by(line)` tells a `type` line and a row's
//! line, with the text of its condition; `kind_named` and `method_named` say what their words name. `Source::new(kind, text)`
//! hands out the tokens of a condition one after another by `next`, up to the place where more than 64 parentheses would be
//! open, and tells by `all_known` whether each word so far is known in its place. `read_comparison(&mut source, token)`
//! reads the comparison that a token begins, and its `condition(kind)` is what it means. What the language is stands in
//! `cond_syntax`; conditions and tables are read by `cond_text`.
#![tactic(auto)]

mod lines;
mod sources;
mod terms;
mod tokens;
mod words;

pub use lines::{Said, is_skipped, said_by};
pub use sources::{Next, Source, Stop};
pub use terms::{Comparison, read_comparison};
pub use tokens::{TextToken, next_token};
pub use words::{kind_named, method_named};
