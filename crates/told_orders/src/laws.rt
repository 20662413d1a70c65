//! A law of lines of items, over definitions alone. A caller of its function, which does nothing, may use what it ensures.

ghost use Rattle.std.specs.Prelude.{◌≡◌, ℕ, List, Contains};
ghost use Rattle.std.specs.List.{AllByRecursion};
ghost use Rattle.gx_base.specs.declared.items.Item.{Item};
ghost use Rattle.told_orders.specs.ItemLines.{HaveOwnLines, BeginsWithLines};

/// Where each item of a list has a line of its own, two orders of such items with whose lines the same bytes begin are the
/// same order. After the lines there is nothing, or what begins otherwise than they do.
pub fn lines_tell_their_items()
    ensures { (items : List Item) (first : ℕ) (line : Item → List ℕ) → HaveOwnLines (Contains items) first line → (bytes : List ℕ) (order other : List Item)
        → AllByRecursion (Contains items) order → AllByRecursion (Contains items) other → BeginsWithLines first line bytes order → BeginsWithLines first line bytes other → order ≡ other }
{}
