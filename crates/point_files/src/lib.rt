//! Points of the plane, and the files that they are read from.
//!
//! Start at `read_points`: `let spots = read_points(alloc, bytes)?;` takes the points from the bytes of a file, numbered
//! from 0, or tells the first row that is at fault, or that there are more than may be read.
//!
//! `specs/PointRows.antt` has what a row says, and `specs/PointFiles.antt` which bytes are a file of points, which row of
//! others is told, and how many points may be read. `laws` has that each text calls for just one answer.
#![tactic(auto)]

mod coordinates;
pub mod laws;
mod reading;

pub use reading::read_points;
