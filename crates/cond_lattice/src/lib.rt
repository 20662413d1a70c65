//! The order of conditions: their classes, the bounds of those that locks can keep, and when one
//! condition, or a table of them, is below another.
//!
//! `class(&cond)` and `table_class(kind, &table)` give a class; `strengthen(alloc, &cond)?` gives a simple condition below
//! another, `meet` and `join` the bounds of two simple ones; `row_below(&lower, &upper)` and
//! `below(kind, &lower, &upper)` decide the order of rows and of tables.
//!
//! `specs/Grades.antt` has the classes, `specs/Simple.antt` the order and the bounds of simple
//! conditions, `specs/Same.antt` when two conditions are the same, `specs/Derivations.antt` the rules by which a
//! row is below another, `specs/Tables.antt` what they say of whole tables. `laws` has what follows for callers.
#![tactic(auto)]

mod answers;
mod classes;
mod decisions;
mod grades;
pub mod laws;
mod rules;
mod same;
mod simple;
mod table_classes;
mod table_rules;

pub use classes::class;
pub use grades::Grade;
pub use rules::row_below;
pub use simple::{join, meet, simple_below, strengthen};
pub use table_classes::table_class;
pub use table_rules::{NotBelow, below};
