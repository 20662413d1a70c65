//! Agglomerative clustering of points: the work that is done for a point, where it starts, and the report.
//!
//! `let spots = read_points(alloc, bytes)?;` reads the points, `let (rooms, ready) = start(alloc, &spots)?;` makes the
//! objects and the items that are ready, and `Chain::new(spots.len() as u64)` is the operator: `run_serially` of
//! `commit_book` takes these. `report(alloc, &spots, order, &rooms)?` writes what the run left.
//!
//! `specs/Chain.antt` has what is done for a point, `specs/CloudState.antt` what the rooms hold, and
//! `specs/ClusterReports.antt` the report. The files that points are read from are those of `point_files`, passed on.
#![tactic(auto)]

mod chain;
mod cloud;
mod cloud_rooms;
mod merges;
mod point_calls;
mod reports;
mod stages;
mod starts;

pub use chain::Chain;
pub use cloud::Cloud;
pub use point_files::read_points;
pub use reports::report;
pub use stages::{Merge, MergeStep, Stage};
pub use starts::start;
