ghost use Rattle.std.specs.Prelude.{◌≡◌, ℕ, Bool, Option, None};
ghost use Rattle.gx_base.specs.declared.calls.Reply.{Reply};
ghost use Rattle.gx_base.specs.declared.items.Item.{Item};
ghost use Rattle.gx_base.specs.Plans.{Plan};
ghost use Rattle.commit_book.specs.Moves.{Moves};

use gx_base::{Act, Item, Reply};

/// What is done for each work item: a body that makes calls and pushes, one act at a time.
/// No call of an operator takes memory.
pub trait Operator {
    /// Where a body stands.
    type St: Drop;

    /// Whether items are to commit in their order.
    ghost is_ordered: { Self → Bool };

    /// How many rooms there are.
    ghost room_count: { Self → ℕ };

    /// What is done for an item.
    ghost plan: { Self → Item → Plan };

    /// What a body that stands here has still to do, given the reply to its last call.
    ghost rest: { Self → Self.St → Option Reply → Plan };

    /// How many acts are left at most.
    ghost to_go: { Self → Self.St → ℕ };

    fn rooms(&self) -> u32
        ensures { result ≡ room_count self.now };

    fn ordered(&self) -> bool
        ensures { result ≡ is_ordered self.now };

    /// Where the body of an item begins.
    fn begin(&self, item: Item) -> Self::St
        ensures { rest self.now result None ≡ plan self.now item };

    /// The next act, given the reply to the last call: none at first and after a push.
    fn next(&self, st: &mut Self::St, last: Option<Reply>) -> Act
        ensures { Moves (room_count self.now) (rest self.now) (to_go self.now) (rest self.now st.old last) (to_go self.now st.old) result st.new };

    /// A bound on the acts that are left. It falls with each act but the last.
    fn left(&self, st: &Self::St) -> u64
        ensures { result ≡ to_go self.now st.now };
}
