ghost use Rattle.std.specs.Prelude.{◌≡◌, [], false};
ghost use Rattle.gx_base.specs.RoomViews.{OfBook};

use crate::values::Value;
use commit_book::Book;
use gate_core::Screen;
use gx_base::{Homed, SeqType};
use std::alloc::Global;

/// A value of a room that can stand in for another one.
pub trait Vacant: Homed {
    /// A book without items. It takes no memory.
    fn vacant(alloc: Global) -> Self
        ensures { Self.told result ≡ record { live = []; done = []; commits = []; mark = 0; origin = OfBook [] false } };
}

impl<T: SeqType, S: Screen<T>> Vacant for Value<T, S> {
    fn vacant(alloc: Global) -> Value<T, S> {
        Value::Book(Book::empty(alloc))
    }
}
