//! The forward gatekeeper: a screen that tells the conflicts of every table without a GENERAL row by what the log
//! remembers. Of each uncommitted call it reads the logged reply and what that call saw when it was made, and never
//! asks the object, whose state has moved on since.
//!
//! `let screen = ForwardScreen::new();` makes one. `screen.fits(kind, &table)` tells whether it may serve a table, which
//! is where no row of it is GENERAL; then `Gate::new(alloc, object, kind, table, screen)` makes a gate that asks it.
#![tactic(auto)]

mod forward;

pub use forward::ForwardScreen;
