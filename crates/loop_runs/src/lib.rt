//! The loops that commands run, by virtual workers over gates: from what a file holds to the bytes of a report.
//!
//! `run_network(alloc, options, &table, &net)` runs the work on a network by the schedule of the options, and answers the run, or
//! the limit at which it stops; `report_network` makes the report of it. `run_points` and `report_points` are the same for the
//! points of a file. `specs/LoopRuns.antt` has what the run of a loop is, and when bytes are the report of one;
//! `specs/NetworkLoop.antt` and `specs/PointsLoop.antt` have the two loops.
#![tactic(auto)]

mod cloud_runs;
mod network_runs;
mod runs;

pub use cloud_runs::{CloudTables, report_points, run_points};
pub use network_runs::{report_network, run_network};
