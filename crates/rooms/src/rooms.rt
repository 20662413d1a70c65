ghost use Rattle.std.specs.Prelude.{◌≡◌, ◌≤◌, ℕ, true, false, IfSome, IfNone};
ghost use Rattle.rooms.specs.RoomsViews.{RoomsView, is_room_held, entered, left};
ghost use Rattle.rooms.specs.HandedOut.{IsHandedOut, IsLost, MayBeLeft};

use gx_base::{Homed, Room};

/// Rooms that hand their values out and take them back. Others may enter them too, through rooms of their own.
pub trait Rooms<V: Homed> {
    /// What the rooms tell their caller.
    ghost view: { Self → RoomsView V };

    /// By what the caller knows the rooms again that were lent it.
    ghost loan: { Self → ℕ };

    /// The book's room, which is the last.
    fn book(&self) -> Room
        ensures { result ≡ (view self.now).book };

    /// The room's value, unless another caller holds the room. It takes no memory.
    fn try_enter(&mut self, room: Room) -> Option<V>
        requires in_range { room ≤ (view self.old).book }
        requires free { is_room_held (view self.old) room ≡ false }
        ensures value { IfSome result (λ value. IsHandedOut V.told (view self.old) room value) }
        ensures some { IfSome result (λ value. view self.new ≡ entered V.told (view self.old) room value) }
        ensures none { IfNone result (IsLost (view self.old) (view self.new) room) }
        ensures loan { loan self.new ≡ loan self.old };

    /// Puts a value in a room that the caller holds. It takes no memory.
    fn leave(&mut self, room: Room, value: V)
        requires held { is_room_held (view self.old) room ≡ true }
        requires value { MayBeLeft (view self.old) room (V.told value) }
        ensures view { view self.new ≡ left V.told (view self.old) room value }
        ensures loan { loan self.new ≡ loan self.old };
}
