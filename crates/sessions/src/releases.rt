ghost use Rattle.std.specs.Prelude.{◌≡◌, ◌∷◌, [], IfOk, IfSome, IfNone, OnOk};
ghost use Rattle.std.specs.Ordering.{nat_cmp};
ghost use Rattle.std.specs.BTreeSet.{insert_key};
ghost use Rattle.sessions.specs.RoomLists.{rooms_of, rooms_after_first, IsPlaceFor};

use gx_base::{NoMemory, Room, Step};
use std::alloc::Global;
use std::cmp::Ordering;
use std::marker::Model;

/// The rooms in which a commit is still to be released, by rising number.
#[derive(Drop)]
pub struct Releases {
    // Those of the whole commit: few, so that a vector serves.
    rooms: Vec<Room>,
    // How many of them are done with.
    passed: usize,
}

impl Model for Releases {
    ghost use Rattle.std.specs.Prelude.{List, ℕ, drop};

    ghost Value = { List ℕ };

    ghost view = { λ releases. drop releases.passed releases.rooms.items };
}

impl Releases {
    /// The rooms of a log.
    pub fn of(alloc: Global, log: &[Step]) -> Result<Releases, NoMemory>
        ensures { IfOk result (λ releases. releases ≡ rooms_of log.now) }
    {
        let mut rooms = Vec::new(alloc);
        for place in (0..log.len()).rev() {
            put_room(&mut rooms, log[place].room)?;
        }
        Ok(Releases { rooms, passed: 0 })
    }

    /// The least of them.
    pub fn first(&self) -> Option<Room>
        ensures some { IfSome result (λ room. self.now ≡ room ∷ rooms_after_first self.now) }
        ensures none { IfNone result (self.now ≡ []) }
    {
        match self.rooms.get(self.passed) {
            Some(room) => Some(*room),
            None => None,
        }
    }

    /// The least of them, where there is one, is released. Takes no memory.
    pub fn pass(&mut self)
        ensures { self.new ≡ rooms_after_first self.old }
    {
        if self.passed < self.rooms.len() {
            self.passed += 1;
        }
    }
}

// Where a room is to stand among others by rising number. None where it is there.
fn place_for(rooms: &[Room], room: Room) -> Option<usize>
    ensures { IsPlaceFor rooms.now room result }
{
    for place in 0..rooms.len() {
        match room.cmp(&rooms[place]) {
            Ordering::Less => return Some(place),
            Ordering::Equal => return None,
            Ordering::Greater => {}
        }
    }
    Some(rooms.len())
}

fn put_room(rooms: &mut Vec<Room>, room: Room) -> Result<(), NoMemory>
    ensures { OnOk result (rooms.new.items ≡ insert_key nat_cmp rooms.old.items room) }
{
    match place_for(rooms.as_slice(), room) {
        Some(place) => rooms.insert(place, room)?,
        None => {}
    }
    Ok(())
}
