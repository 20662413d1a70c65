//! A tree of points in the plane: it finds a point by its number, and the nearest one to a spot. Start at `Tree`, which is
//! made empty (`new`) or balanced from a list (`of_points`), and changed by `insert`, `take_out` and `put_back`; `nearest`
//! searches one. A tree stands for a state of points (`tree_state` in `specs/TreeStates.antt`), and every call says what it
//! does to that; a tree that these calls made is sound (`IsSound` there), which the others ask for and keep.
//!
//! A point that was taken out keeps its node, which is dead, until the tree is made anew (`rebuilt`). So it is taken out
//! and put back by a mark, without memory. A search keeps the parts of the tree that it has still to visit in a list of
//! its own, so that a deep tree needs no deep recursion; it leaves a part out only where the plane before it is farther
//! than the nearest point so far, or where all in it was taken out.
#![tactic(auto)]

mod bareness;
mod growth;
mod nodes;
mod rebuild;
mod search;
mod tree;

pub use search::{Found, nearest};
pub use tree::Tree;
