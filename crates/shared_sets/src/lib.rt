//! Sets of numbers, and cells: numbers by key. Both are shared objects whose calls can be taken back. Start at
//! `SharedSet` and `Cells`; `set_methods` and `cells_methods` have the numbers of their methods.
//!
//! `let mut set = SharedSet::new(alloc);` has no numbers. `set.apply(Call::new(set_methods::ADD, 7, 0, 0, 0))?` adds one and
//! replies whether it is new, `set.undo(call, reply)` takes that back, and `set.has(7)` asks. `Cells` has `value(key)`.
//!
//! A number or a key that was once written keeps its row, dead or not, until `tidy`. So a call is undone and done
//! again in the row that it has made, without memory. `specs/SetTables.antt` and `specs/CellsTables.antt` have the
//! tables of conditions that they ship, and `laws` says that these are valid.
#![tactic(auto)]

pub mod cells_methods;
mod cells_shipping;
pub mod laws;
mod marked_set;
mod numbered_cells;
pub mod set_methods;
mod set_shipping;

pub use marked_set::SharedSet;
pub use numbered_cells::Cells;
