//! Preflow-push on a network: the work done for a node, where it starts, and the report.
//!
//! `let net = read_max(alloc, bytes)?;` reads a network, `let (shards, ready) = start(alloc, &net)?;` makes the objects and
//! the items that are ready, and `Discharge::new(alloc, &net)?` is the operator: `run_serially` of `commit_book` takes these.
//! `report(alloc, &net, order, &shards)?` writes what the run left.
//!
//! `specs/Discharge.antt` has what is done for a node, `specs/StartLaw.antt` where the work starts, and
//! `specs/FlowReports.antt` the report. `laws` has what follows from these definitions alone. Networks and the files that
//! they are read from are those of `flow_files`, passed on.
#![tactic(auto)]

mod discharge;
mod flow_calls;
pub mod laws;
mod reports;
mod rooms;
mod stages;
mod starts;
mod touches;

pub use discharge::Discharge;
pub use flow_files::{Arc, Network, read_max};
pub use reports::report;
pub use stages::{Stage, Walk};
pub use starts::start;
pub use touches::Touch;
