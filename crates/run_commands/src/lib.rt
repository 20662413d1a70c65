//! The commands of the program: from a plan and the files that it names to the bytes of a report.
//!
//! `read_inputs(alloc, &plan, &mut files)` reads the files, and `report_of(alloc, &plan, &inputs)` makes the report, or
//! answers the fault for which there is none. `specs/CommandMeaning.antt` has what is said of a command, and
//! `specs/commands/` what each one does; its code stands in `src/commands/`.
#![tactic(auto)]

mod cloud_tables;
mod commands;
mod inputs;
mod run_faults;
mod run_tables;

pub use commands::classify::classify;
pub use commands::report_of;
pub use inputs::{InputFiles, read_inputs};
pub use run_faults::{RunFault, TableFault};
