//! The screen of abstract locks: it tells the conflicts of a table of simple conditions by lock modes. Make one
//! with `LockScreen::new(alloc, kind, &table)`, and hand it to a `Gate` with the same table. A call needs locks,
//! each a mode with a value of the call or of its reply, and is in the way of another where a lock of the one and
//! a lock of the other have equal values and modes that exclude each other. No condition is looked at once the
//! modes are made.
#![tactic(auto)]

mod clashing;
mod locks;

pub use lock_compiler::CompileRefuse;
pub use locks::LockScreen;
