ghost use Rattle.std.specs.Prelude.{◌≡◌, ◌+◌, false, length, IfOk};
ghost use Rattle.rooms.specs.Visits.{Visits, view_of};
ghost use Rattle.session_cases.specs.LostTakes.{lossy_view};

use gx_base::{NoMemory, Room};
use rooms::{Rooms, Vacant, VecRooms};
use std::alloc::Global;

/// Rooms in a vector, some of which another caller seems to hold: the takes that a list says are lost. They tell no values.
#[derive(Drop)]
pub struct LossyRooms<V: Vacant> {
    rooms: VecRooms<V>,
    /// For each take that is still to come, from the last on, whether it is lost. Takes past the list aren't.
    losses: Vec<bool>,
    lost: Vec<u64>,
    ghost sized: { length lost.items ≡ (view_of V.told rooms).book + 1 },
}

impl<V: Vacant> LossyRooms<V> {
    /// The first of these takes is the last of the list.
    pub fn new(
        alloc: Global,
        rooms: VecRooms<V>,
        losses: Vec<bool>,
    ) -> Result<LossyRooms<V>, NoMemory>
        ensures { IfOk result (λ made. made.rooms ≡ rooms) }
    {
        let count = rooms.book() as usize + 1;
        let lost = Vec::from_elem(alloc, 0, count)?;
        Ok(LossyRooms {
            rooms,
            losses,
            lost,
        })
    }

    /// The rooms without the losses.
    pub fn into_rooms(self) -> VecRooms<V>
        ensures { result ≡ self.rooms }
    {
        self.rooms
    }

    fn is_next_lost(&mut self) -> bool
        ensures rooms { self.new.rooms ≡ self.old.rooms }
        ensures lost { self.new.lost.items ≡ self.old.lost.items }
    {
        self.losses.pop() == Some(true)
    }
}

impl<V: Vacant> Rooms<V> for LossyRooms<V> {
    ghost use Rattle.session_cases.specs.LostTakes.{lossy_view};

    ghost view = { λ lossy. lossy_view V.told lossy.rooms lossy.lost.items };

    ghost loan = { λ _. 0 };

    fn book(&self) -> Room {
        self.rooms.book()
    }

    fn try_enter(&mut self, room: Room) -> Option<V> {
        if self.is_next_lost() {
            let count = &mut self.lost[room as usize];
            *count = count.saturating_add(1);
            return None;
        }
        self.rooms.try_enter(room)
    }

    fn leave(&mut self, room: Room, value: V) {
        self.rooms.leave(room, value);
    }
}
