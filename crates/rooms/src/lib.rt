//! The rooms that the workers of a loop enter and leave. Each room holds a gate, and the last one the book. Who enters a
//! room is handed its value and owns it until the room is left; other callers don't get in meanwhile.
//!
//! Start at `Rooms` in `src/rooms.rt`: `rooms.try_enter(room)` hands out a room's value, or None where another caller holds
//! the room, and `rooms.leave(room, value)` puts a value back. `specs/RoomsViews.antt` has what rooms tell their caller and
//! what these two calls make of it, `specs/HandedOut.antt` what a caller may rely on and what is asked of it.
//!
//! `VecRooms::new(alloc, values)` makes rooms for one caller that acts for every worker, with the gates in a vector and the
//! book last, each as a `Value`; `into_values` gives the values back. `laws` has what follows.
#![tactic(auto)]

mod history;
pub mod laws;
mod rooms;
mod vacant;
mod values;
mod vec_rooms;

pub use rooms::Rooms;
pub use vacant::Vacant;
pub use values::Value;
pub use vec_rooms::VecRooms;
