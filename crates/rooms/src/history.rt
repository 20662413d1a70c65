ghost use Rattle.std.specs.Prelude.{◌≡◌, ◌∷◌, []};
ghost use Rattle.rooms.specs.Histories.{visits_of};
ghost use Rattle.rooms.specs.RoomsViews.{enters, leaves};

use gx_base::Room;
use std::snapshot::Snapshot;

/// What was handed out of rooms and left in them, for contracts alone: it has no values, and takes no memory.
#[derive(Drop)]
pub(crate) enum History<V> {
    New(Snapshot<Vec<V>>),
    Entered(Room, Snapshot<V>, Snapshot<History<V>>),
    Left(Room, Snapshot<V>, Snapshot<History<V>>),
}

impl<V> History<V> {
    pub(crate) fn new(values: &Vec<V>) -> History<V>
        ensures { visits_of result ≡ record { values = values.now.items; moves = [] } }
    {
        History::New(Snapshot::of(values))
    }

    pub(crate) fn and_entered(&self, room: Room, value: &V) -> History<V>
        ensures { visits_of result ≡ (let before = visits_of self.now in record before { moves = enters room value.now ∷ before.moves }) }
    {
        History::Entered(room, Snapshot::of(value), Snapshot::of(self))
    }

    pub(crate) fn and_left(&self, room: Room, value: &V) -> History<V>
        ensures { visits_of result ≡ (let before = visits_of self.now in record before { moves = leaves room value.now ∷ before.moves }) }
    {
        History::Left(room, Snapshot::of(value), Snapshot::of(self))
    }
}
