//! The table that the objects of a run are under: a shipped one, by a word, or one that a user wrote, which is accepted
//! where each of its rows is below the precise one; and the screen that the table's class calls for.
//!
//! `choice_named("simple")` is the shipped table of a word. `table_of_run::<FlowShard>(alloc, Kind::Flow, choice,
//! conditions)?` makes the table, with the bytes of a user's own where there is one, and a gate may have it.
//! `accepted_table` reads and compares one. `specs/RunTables.antt` says which tables these are, and when one is refused.
#![tactic(auto)]

mod choices;
mod refusals;
mod run_tables;
mod screens;

pub use choices::choice_named;
pub use refusals::TableRefuse;
pub use run_tables::{accepted_table, table_of_run};
pub use screens::{AnyScreen, screen_for};
