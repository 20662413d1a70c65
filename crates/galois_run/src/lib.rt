//! The top call of Galois: the words of a command line, the files that it reads, and the report that it writes.
//!
//! `run_turns(alloc, &words, &mut files, &mut out)` does what the words ask for, and answers a `Status`, which
//! `status_line` and `status_number` tell. `specs/RunTurns.antt` has what a status says; `run_words` has what words ask for,
//! and `run_commands` what each command does.
#![tactic(auto)]

mod run;
mod status;

pub use run::run_turns;
pub use run_commands::{TableFault, classify};
pub use run_words::{Command, Plan, RunOptions, WordsFault, read_words};
pub use status::{Status, status_line, status_number};
