//! Laws of rooms, over what they tell alone. A caller of one of these functions, which do nothing, may use what it ensures.

ghost use Rattle.std.specs.Prelude.{◌≡◌, ◌+◌, ◌==◌, ℕ, true, false, None};
ghost use Rattle.gx_base.specs.Replays.{put};
ghost use Rattle.rooms.specs.RoomsViews.{RoomsView, holds_book, commits_entered, nowhere, visited, entered, with_value, left};
ghost use Rattle.rooms.specs.HandedOut.{CountHasRisen};
ghost use Rattle.rooms.specs.Visits.{Visits, view_of, everyone};

use gx_base::Homed;

/// Who enters a room and leaves it has changed the value that is told of this room alone, and has both among its moves. A
/// gate that is left with the mark of the held book's next commit is released then, and none is once the book is left.
pub fn a_visit_changes_one_room<V: Homed>()
    ensures gate { (view : RoomsView V) (room : ℕ) (was now : V) → view.held room ≡ None → (room == view.book) ≡ false → holds_book view ≡ false → left V.told (entered V.told view room was) room now ≡ record (with_value V.told view room now) { moves = visited room was now view.moves } }
    ensures released { (view : RoomsView V) (room : ℕ) (was now : V) → view.held room ≡ None → (room == view.book) ≡ false → holds_book view ≡ true → (V.told now).mark ≡ commits_entered view + 1 → left V.told (entered V.told view room was) room now ≡ record (with_value V.told view room now) { released = put view.released room true; moves = visited room was now view.moves } }
    ensures book { (view : RoomsView V) (was now : V) → view.held view.book ≡ None → left V.told (entered V.told view view.book was) view.book now ≡ record (with_value V.told view view.book now) { released = nowhere; moves = visited view.book was now view.moves } }
{}

/// Rooms in a vector act for every worker, and no take is ever lost there.
pub fn vectors_lose_no_take<V: Homed>()
    ensures everyone { (visits : Visits V) → (view_of V.told visits).acts_for ≡ everyone }
    ensures lost { (visits : Visits V) (room : ℕ) → (view_of V.told visits).lost room ≡ 0 }
    ensures never { (before after : Visits V) (room : ℕ) → CountHasRisen ((view_of V.told before).lost room) ((view_of V.told after).lost room) → ⊥ }
{}
