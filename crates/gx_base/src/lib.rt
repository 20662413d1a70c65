//! The plain data that every crate of Galois speaks of: calls and replies, work items, conditions on
//! pairs of calls, tables of such conditions, and the trait of objects whose calls run one after another.
//!
//! `specs/` has what they mean. Start at `specs/Steps.antt`, which says what each call does to the
//! abstract state of an object, and `specs/Tables.antt`, which says when a table of conditions is valid.
//! `laws` has what follows from these definitions alone, as that the inverse of a call takes it back.
//!
//! `object.apply(Call::new(1, 7, 0, 0, 0))?` does a call of a `SeqType` and gives its reply, and `object.undo(call, reply)`
//! takes it back. `T::shipped(alloc, Kind::Set, Choice::Precise)?` is a table of conditions, `table.row(first, second)` the
//! condition of two methods, and `eval(table.row(first, second), &early, &late, seen)` tells whether two calls commute.
#![tactic(auto)]

mod acts;
mod calls;
mod conditions;
mod homed;
mod inputs;
mod items;
mod kinds;
pub mod laws;
mod memory;
mod sequential;
mod spots;
mod tables;

pub use acts::{Act, Commit, Entry, Step};
pub use calls::{Call, Made, Reply, Room, Seen, Spot};
pub use conditions::{Cond, Part, Side, Term, boxed, eval};
pub use homed::Homed;
pub use inputs::{InputFault, What};
pub use items::Item;
pub use kinds::{
    CELLS_METHODS, Choice, DOMAIN_METHODS, FLOW_METHODS, Kind, MOST_METHODS, POINT_METHODS,
    SET_METHODS, method_at, method_of, word_of,
};
pub use memory::NoMemory;
pub use sequential::SeqType;
pub use spots::{beyond, distance, square};
pub use tables::Table;
