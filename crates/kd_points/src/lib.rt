//! Points in the plane that come and go, and the nearest one to a spot: a shared object whose calls can be taken back. Start
//! at `KdPoints`; `point_methods` has the numbers of its methods.
//!
//! The points stand in a tree of `point_trees`, where one that was taken out keeps its node, which is dead, until `tidy`. So
//! a call is undone and done again by a mark, without memory. `specs/PointTables.antt` has the tables of conditions that
//! points ship, and `laws` says that these are valid.
#![tactic(auto)]

mod choosing;
pub mod laws;
mod point_calls;
pub mod point_methods;
mod point_set;
mod point_shipping;

pub use point_set::KdPoints;
