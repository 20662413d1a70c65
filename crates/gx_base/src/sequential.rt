ghost use Rattle.std.specs.Prelude.{◌≡◌, ℤ, Bool, false, IsTrue, IfOk, OnOk, OnErr};
ghost use Rattle.gx_base.specs.States.{State};
ghost use Rattle.gx_base.specs.Steps.{next_state, reply_to, inverse, observed, IsState};
ghost use Rattle.gx_base.specs.ShippedTables.{KindTables, SuitKind, IsShipped};
ghost use Rattle.gx_base.specs.Kinds.{kind_number};
ghost use Rattle.gx_base.specs.Methods.{is_method};
ghost use Rattle.gx_base.specs.declared.calls.Made.{Made};
ghost use Rattle.gx_base.specs.declared.kinds.Kind.{Kind};

use crate::calls::{Call, Reply};
use crate::kinds::{Choice, Kind};
use crate::memory::NoMemory;
use crate::tables::Table;
use std::alloc::Global;

/// An object whose calls run one after another, and can be taken back.
pub trait SeqType: Drop {
    /// The abstract state that a value stands for.
    ghost state: { Self → State };

    /// The call with its reply can be undone, and done again, without memory.
    ghost has_room: { Self → Made → Bool };

    /// Which kinds of objects the type holds.
    ghost holds_kind: { Kind → Bool };

    /// What the type ships for a kind that it holds.
    ghost tables: { Kind → KindTables };

    /// The state of every value is one that an object may have.
    ghost known: { (object : Self) → IsState (state object) };

    /// A call of another kind of object always has room.
    ghost foreign_roomed: { (object : Self) (made : Made) → is_method (state object).kind made.call.method ≡ false → IsTrue (has_room object made) };

    /// What the type ships for a kind that it holds, the objects of this kind may use.
    ghost tables_suit: { (kind : Kind) → IsTrue (holds_kind kind) → SuitKind (kind_number kind) (tables kind) };

    /// Does the call, and makes room to undo it.
    fn apply(&mut self, call: Call) -> Result<Reply, NoMemory>
        ensures reply { IfOk result (λ reply. reply ≡ reply_to (state self.old) call) }
        ensures ok { OnOk result (state self.new ≡ next_state (state self.old) call) }
        ensures room { IfOk result (λ reply. IsTrue (has_room self.new (record { call = call; reply = reply }))) }
        ensures err { OnErr result (state self.new ≡ state self.old) }
        ensures kept { (made : Made) → IsTrue (has_room self.old made) → IsTrue (has_room self.new made) };

    /// Whether the call with its reply can be undone and done again.
    fn roomed(&self, call: Call, reply: Reply) -> bool
        ensures { result ≡ has_room self.now (record { call = call; reply = reply }) };

    /// Takes the call back: the state is the one before a call that made this reply.
    fn undo(&mut self, call: Call, reply: Reply)
        requires { IsTrue (has_room self.old (record { call = call; reply = reply })) }
        ensures state { state self.new ≡ inverse (state self.old) call reply }
        ensures kept { (made : Made) → IsTrue (has_room self.old made) → IsTrue (has_room self.new made) };

    /// Does the call again, which replies here what it replied before.
    fn redo(&mut self, call: Call, reply: Reply)
        requires room { IsTrue (has_room self.old (record { call = call; reply = reply })) }
        requires reply { reply_to (state self.old) call ≡ reply }
        ensures state { state self.new ≡ next_state (state self.old) call }
        ensures kept { (made : Made) → IsTrue (has_room self.old made) → IsTrue (has_room self.new made) };

    /// The state function at `x`.
    fn observe(&self, x: i64) -> i64
        ensures { result ≡ observed (state self.now) x };

    /// Gives back what dead rows take up, where they are many. A call may lose its room.
    fn tidy(&mut self) -> Result<(), NoMemory>
        ensures { state self.new ≡ state self.old };

    /// The shipped table of a kind that the type holds, and else one in which every row is false.
    fn shipped(alloc: Global, kind: Kind, choice: Choice) -> Result<Table, NoMemory>
        ensures { IfOk result (IsShipped (holds_kind kind) (tables kind) choice) };
}
