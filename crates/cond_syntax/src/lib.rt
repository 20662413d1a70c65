//! The language in which conditions on pairs of calls are written.
//!
//! `specs/` has what it is: `Pieces` and `Tokens` the tokens of a line, `Grammar` which tokens spell which tree, `WrittenConditions`
//! what its words name, `Fronts` how far a line is read, `TableTexts` which bytes are the text of which table and what is
//! the first fault of others, `Printing` how conditions and tables are printed, and `Printable` which of them are read
//! back. `laws` has what follows from these definitions alone. There is no code here: `cond_text` reads,
//! and `cond_print` prints.
#![tactic(auto)]

pub mod laws;
