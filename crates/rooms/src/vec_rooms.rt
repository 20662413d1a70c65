ghost use Rattle.std.specs.Prelude.{◌≡◌, ◌<◌, ◌^◌, ℕ, true, false, [], length, map, slice_get, slice_set, Some};
ghost use Rattle.rooms.specs.RoomsViews.{is_room_held, enters, leaves};
ghost use Rattle.rooms.specs.Visits.{AreGatesAndBook, AreTold, view_of};

use crate::history::History;
use crate::rooms::Rooms;
use crate::vacant::Vacant;
use gx_base::Room;
use std::alloc::Global;
use std::marker::Model;
use std::mem;

/// Rooms in a vector, which one caller enters on behalf of every worker. So no other caller ever holds one: `try_enter`
/// always answers the value.
#[derive(Drop)]
pub struct VecRooms<V: Vacant> {
    // Where a room is held, a vacant value stands in its place.
    values: Vec<V>,
    history: History<V>,
    alloc: Global,
}

impl<V: Vacant> Model for VecRooms<V> {
    ghost use Rattle.rooms.specs.Visits.{Visits, visits_code, view_of, AreKeptValues};
    ghost use Rattle.rooms.specs.Histories.{visits_of};

    ghost Value = { Visits V };

    ghost coded = { visits_code V.code };

    ghost view = { λ rooms. visits_of rooms.history };

    ghost invariant = { λ rooms. AreKeptValues V.told (view_of V.told (visits_of rooms.history)) rooms.values.items };
}

impl<V: Vacant> VecRooms<V> {
    ghost use Rattle.std.specs.Prelude.{◌∷◌, ◌≤◌};
    ghost use Rattle.rooms.specs.HandedOut.{IsHandedOut, MayBeLeft};

    /// Rooms with these values, none of them held. It takes no memory.
    pub fn new(alloc: Global, values: Vec<V>) -> VecRooms<V>
        requires rooms { AreGatesAndBook (map V.told values.items) }
        requires few { length values.items < 2 ^ 32 }
        ensures { result ≡ record { values = values.items; moves = [] } }
    {
        let history = History::new(&values);
        VecRooms {
            values,
            history,
            alloc,
        }
    }

    /// The values as they are, the book last.
    pub fn values(&self) -> &[V]
        requires { (room : ℕ) → is_room_held (view_of V.told self.now) room ≡ false }
        ensures { (room : ℕ) → slice_get result.now room ≡ (view_of V.told self.now).told room }
    {
        &self.values
    }

    /// These rooms tell what each of them has. For proofs: it does nothing.
    pub fn tell(&self)
        ensures { AreTold V.told (view_of V.told self.now) }
    {
        let _ = &self.values;
    }

    /// The values as they are, the book last.
    pub fn into_values(self) -> Vec<V>
        requires { (room : ℕ) → is_room_held (view_of V.told self) room ≡ false }
        ensures { (room : ℕ) → slice_get result.items room ≡ (view_of V.told self).told room }
    {
        self.values
    }

    #[inline(always)]
    fn hand_out(&mut self, room: Room) -> V
        requires in_range { room ≤ (view_of V.told self.old).book }
        requires free { is_room_held (view_of V.told self.old) room ≡ false }
        ensures value { IsHandedOut V.told (view_of V.told self.old) room result }
        ensures moved { self.new ≡ record self.old { moves = enters room result ∷ self.old.moves } }
    {
        let vacant = V::vacant(self.alloc);
        let value = exchange(&mut self.values, room, vacant);
        self.history = self.history.and_entered(room, &value);
        value
    }

    #[inline(always)]
    fn take_back(&mut self, room: Room, value: V)
        requires held { is_room_held (view_of V.told self.old) room ≡ true }
        requires value { MayBeLeft (view_of V.told self.old) room (V.told value) }
        ensures { self.new ≡ record self.old { moves = leaves room value ∷ self.old.moves } }
    {
        self.history = self.history.and_left(room, &value);
        let vacant = exchange(&mut self.values, room, value);
        // It has no memory, and to destroy it would be to move it out first.
        mem::forget(vacant);
    }
}

// The value at a place, where another one stands then.
#[inline(always)]
fn exchange<V: Drop>(values: &mut Vec<V>, room: Room, value: V) -> V
    requires { room < length values.old.items }
    ensures value { slice_get values.old.items room ≡ Some result }
    ensures put { values.new.items ≡ slice_set values.old.items room value }
{
    mem::replace(&mut values[room as usize], value)
}

impl<V: Vacant> Rooms<V> for VecRooms<V> {
    ghost use Rattle.rooms.specs.Visits.{view_of};

    ghost view = { λ rooms. view_of V.told rooms };

    ghost loan = { λ _. 0 };

    fn book(&self) -> Room {
        (self.values.len() - 1) as u32
    }

    #[inline(always)]
    fn try_enter(&mut self, room: Room) -> Option<V> {
        Some(self.hand_out(room))
    }

    #[inline(always)]
    fn leave(&mut self, room: Room, value: V) {
        self.take_back(room, value);
    }
}
