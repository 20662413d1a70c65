//! What the words of a command line ask for.
//!
//! `read_words(alloc, &words)` reads the words after the program's own name, and gives the `Plan`: the command, the names of its
//! files, and its options. `specs/Words.antt` has which words are understood and as what, `specs/RunOptions.antt` the
//! options.
#![tactic(auto)]

mod options;
mod words;

pub use options::RunOptions;
pub use words::{Command, Plan, WordsFault, read_words};
