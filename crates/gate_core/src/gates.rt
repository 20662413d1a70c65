ghost use Rattle.std.specs.Prelude.{◌≡◌, ◌↔◌, ◌+◌, ◌<◌, ◌≤◌, ◌++◌, ◌∷◌, [], ℕ, List, Some, None, IfOk, OnOk, OnErr, IsTrue, length, slice_get, vec_len, vec_capacity};
ghost use Rattle.gx_base.specs.Steps.{next_state, inverse, IsCall};
ghost use Rattle.gx_base.specs.TableRows.{RowMap, row_of};
ghost use Rattle.gx_base.specs.Tables.{KeepsToKind};
ghost use Rattle.gx_base.specs.declared.calls.Call.{Call};
ghost use Rattle.gx_base.specs.declared.calls.Made.{Made};
ghost use Rattle.gx_base.specs.declared.acts.Entry.{Entry};
ghost use Rattle.gate_core.specs.Entries.{made_of, others_than};
ghost use Rattle.gate_core.specs.Replays.{start_of, LeadTo};
ghost use Rattle.gate_core.specs.Views.{asked_entry};
ghost use Rattle.gate_core.specs.CallAnswers.{AllRoomed, TellsOf};

use crate::entries::{append_done, is_entry_of, last_place};
use crate::live::LiveEntries;
use crate::refusals::{GateRefuse, Told};
use crate::screens::Screen;
use gx_base::{Call, Entry, Item, Kind, NoMemory, Reply, Seen, SeqType, Table};
use std::alloc::Global;
use std::marker::Model;

/// A shared object with the log of its calls. Those of iterations that haven't committed are live: they
/// can be undone, and a call of another iteration is done only where it commutes with each of them.
#[derive(Drop)]
pub struct Gate<T: SeqType, S: Screen<T>> {
    object: T,
    kind: Kind,
    table: Table,
    screen: S,
    done: Vec<Entry>,
    live: LiveEntries,
    mark: u64,
}

impl<T: SeqType, S: Screen<T>> Model for Gate<T, S> {
    ghost use Rattle.std.specs.Prelude.{vec_capacity};
    ghost use Rattle.gx_base.specs.Kinds.{kind_number};
    ghost use Rattle.gate_core.specs.Views.{GateView, view_code};
    ghost use Rattle.gate_core.specs.CallAnswers.{IsGate};

    ghost Value = { GateView };

    ghost coded = { view_code };

    ghost view = { λ g. record { kind = kind_number g.kind; table = g.table; state = T.state g.object; done = g.done.items; live = g.live.entries.items; mark = g.mark } };

    ghost invariant = { λ g. IsGate (record { kind = kind_number g.kind; table = g.table; state = T.state g.object; done = g.done.items; live = g.live.entries.items; mark = g.mark }) (T.has_room g.object) (S.stands_for g.screen) (S.suits g.screen) (vec_capacity g.done) };
}

impl<T: SeqType, S: Screen<T>> Gate<T, S> {
    ghost use Rattle.std.specs.Prelude.{◌≡◌, ◌^◌, ◌-◌, ◌<◌, ◌≤◌, [], ℕ, IfOk, IfErr};
    ghost use Rattle.gx_base.specs.Kinds.{kind_number};
    ghost use Rattle.gx_base.specs.TableRows.{row_of};
    ghost use Rattle.gx_base.specs.Tables.{KeepsToKind, IsValid};
    ghost use Rattle.gate_core.specs.Entries.{last_of};
    ghost use Rattle.gate_core.specs.Views.{GateView, IsLawfulGate, undo_last, release};
    ghost use Rattle.gate_core.specs.CallAnswers.{IsAdmitted, GateRefusalFits, call_of};

    /// A gate with no entries.
    pub fn new(alloc: Global, object: T, kind: Kind, table: Table, screen: S) -> Gate<T, S>
        requires valid { IsValid (kind_number kind) (row_of table) }
        requires keeps_to_kind { KeepsToKind (kind_number kind) (row_of table) }
        requires of_kind { (T.state object).kind ≡ kind_number kind }
        requires entries { S.stands_for screen [] }
        requires fits { S.suits screen (kind_number kind) table }
        ensures { result ≡ record { kind = kind_number kind; table = table; state = T.state object; done = []; live = []; mark = 0 } }
    {
        Gate {
            object,
            kind,
            table,
            screen,
            done: Vec::new(alloc),
            live: LiveEntries::new(alloc),
            mark: 0,
        }
    }

    pub fn object(&self) -> &T
        ensures { T.state result.now ≡ self.now.state }
    {
        &self.object
    }

    /// The object as it is.
    pub fn into_object(self) -> T
        ensures { T.state result ≡ self.state }
    {
        self.object
    }

    pub fn table(&self) -> &Table
        ensures { result.now ≡ self.now.table }
    {
        &self.table
    }

    /// The committed entries, by rising number of their commits, and within one in the order of their calls.
    pub fn done(&self) -> &[Entry]
        ensures { result.now ≡ self.now.done }
    {
        self.done.as_slice()
    }

    /// The uncommitted entries, in the order of their calls.
    pub fn live(&self) -> &[Entry]
        ensures { result.now ≡ self.now.live }
    {
        self.live.as_slice()
    }

    /// One more than the number of the last commit that has an entry here, and 0 where there is none.
    pub fn mark(&self) -> u64
        ensures mark { result ≡ self.now.mark }

        // What holds of every gate between its calls.
        ensures lawful { IsLawfulGate self.now }
    {
        self.mark
    }

    /// Does a call, unless an uncommitted entry of another iteration is in its way. Where there is none of
    /// another iteration, that takes no longer in a gate with many entries than in one with few.
    #[inline(always)]
    pub fn call(
        &mut self,
        worker: u32,
        iter: u64,
        item: Item,
        call: Call,
    ) -> Result<Reply, GateRefuse>
        ensures ok { IfOk result (λ reply. IsAdmitted self.old self.new worker iter item call reply) }
        ensures err { IfErr result (λ refuse. GateRefusalFits self.old self.new worker iter item call refuse) }
    {
        take_memory(&mut self.object, &mut self.done, &mut self.live)?;
        let asked = ask(&mut self.object, &mut self.screen, worker, iter, item, call)?;
        match conflict(
            &mut self.object,
            &mut self.screen,
            &self.live,
            &self.table,
            &asked,
        ) {
            Some(told) => {
                take_back(&mut self.object, &asked);
                Err(GateRefuse::Conflict(told))
            }
            None => {
                self.screen.entered(&asked);
                self.live.push_reserved(asked);
                Ok(asked.reply)
            }
        }
    }

    /// Takes back the last uncommitted call of an iteration. Takes no memory, and no walk past other entries
    /// where that call is the last of the gate.
    pub fn undo_last(&mut self, worker: u32, iter: u64) -> Option<(Call, Reply)>
        ensures new { self.new ≡ undo_last self.old worker iter }
        ensures back { result ≡ call_of (last_of worker iter self.old.live) }
    {
        let place = last_place(self.live.as_slice(), worker, iter)?;
        let entry = self.live.remove(place);
        take_back(&mut self.object, &entry);
        self.screen.left(&entry);
        Some((entry.call, entry.reply))
    }

    /// The uncommitted entries of an iteration are committed, under the number of its commit. Takes no memory.
    pub fn release(&mut self, worker: u32, iter: u64, number: u64)
        requires rises { self.old.mark ≤ number }
        requires small { number < 2 ^ 64 - 1 }
        ensures { self.new ≡ release self.old worker iter number }
    {
        leave::<T, S>(&mut self.screen, self.live.as_slice(), worker, iter);
        self.mark = append_done(
            &mut self.done,
            self.live.as_slice(),
            worker,
            iter,
            number,
            self.mark,
        );
        self.live.keep_others(worker, iter);
    }
}

// Takes the memory for one more entry. An object that no live call needs as it is tidies itself first.
#[inline(always)]
fn take_memory<T: SeqType>(
    object: &mut T,
    done: &mut Vec<Entry>,
    live: &mut LiveEntries,
) -> Result<(), NoMemory>
    ensures state { T.state object.new ≡ T.state object.old }
    ensures roomed { AllRoomed (T.has_room object.old) live.old.entries.items → AllRoomed (T.has_room object.new) live.old.entries.items }
    ensures done { done.new.items ≡ done.old.items }
    ensures live { live.new.entries.items ≡ live.old.entries.items }
    ensures capacity { vec_capacity done.old ≤ vec_capacity done.new }
    ensures done_room { OnOk result (length done.new.items + (length live.new.entries.items + 1) ≤ vec_capacity done.new) }
    ensures live_room { OnOk result (vec_len live.new.entries + 1 ≤ vec_capacity live.new.entries) }
{
    let count = live.as_slice().len();
    if count == 0 {
        object.tidy()?;
    }
    live.reserve_one()?;
    done.reserve(count + 1)?;
    Ok(())
}

// The object does the call, once the screen has room for it. The entry has what it replied and saw.
#[inline(always)]
fn ask<T: SeqType, S: Screen<T>>(
    object: &mut T,
    screen: &mut S,
    worker: u32,
    iter: u64,
    item: Item,
    call: Call,
) -> Result<Entry, NoMemory>
    ensures asked { IfOk result (λ asked. asked ≡ asked_entry worker iter item call (T.state object.old)) }
    ensures ok { OnOk result (T.state object.new ≡ next_state (T.state object.old) call) }
    ensures err { OnErr result (T.state object.new ≡ T.state object.old) }
    ensures roomed { IfOk result (λ asked. IsTrue (T.has_room object.new (made_of asked))) }
    ensures kept { (made : Made) → IsTrue (T.has_room object.old made) → IsTrue (T.has_room object.new made) }
    ensures call { IsCall call }
    ensures room { OnOk result (S.has_room screen.new worker iter call) }
    ensures entries { (entries : List Entry) → S.stands_for screen.old entries → S.stands_for screen.new entries }
    ensures same { (kind : ℕ) (table : RowMap) → S.suits screen.old kind table ↔ S.suits screen.new kind table }
{
    let mut asked = Entry {
        worker,
        iter,
        item,
        call,
        reply: Reply {
            p: 0,
            q: 0,
            r: 0,
            s: 0,
        },
        seen: object.observe(call.a),
        done: None,
    };
    screen.make_room(&asked)?;
    asked.reply = object.apply(call)?;
    Ok(asked)
}

fn take_back<T: SeqType>(object: &mut T, entry: &Entry)
    requires { IsTrue (T.has_room object.old (made_of entry.now)) }
    ensures state { T.state object.new ≡ inverse (T.state object.old) entry.now.call entry.now.reply }
    ensures kept { (made : Made) → IsTrue (T.has_room object.old made) → IsTrue (T.has_room object.new made) }
{
    object.undo(entry.call, entry.reply);
}

// The first live entry that is in the way of a call, which the object has done. No entry of its own iteration
// is, so an iteration that is alone asks no screen.
#[inline(always)]
fn conflict<T: SeqType, S: Screen<T>>(
    object: &mut T,
    screen: &mut S,
    live: &LiveEntries,
    table: &Table,
    asked: &Entry,
) -> Option<Told>
    requires entries { S.stands_for screen.old live.now.entries.items }
    requires fits { (kind : ℕ) × S.suits screen.old kind table.now × KeepsToKind kind (row_of table.now) }
    requires roomed { AllRoomed (T.has_room object.old) (live.now.entries.items ++ asked.now ∷ []) }
    requires replays { LeadTo (row_of table.now) live.now.entries.items asked.now (T.state object.old) }
    ensures told { TellsOf (row_of table.now) (start_of (T.state object.old) (live.now.entries.items ++ asked.now ∷ [])) live.now.entries.items asked.now result }
    ensures state { T.state object.new ≡ T.state object.old }
    ensures kept { (made : Made) → IsTrue (T.has_room object.old made) → IsTrue (T.has_room object.new made) }
    ensures entries { (entries : List Entry) → S.stands_for screen.old entries → S.stands_for screen.new entries }
    ensures room { (worker iter : ℕ) (call : Call) → S.has_room screen.old worker iter call → S.has_room screen.new worker iter call }
    ensures same { (kind : ℕ) (table : RowMap) → S.suits screen.old kind table ↔ S.suits screen.new kind table }
{
    if live.are_all_of(asked.worker, asked.iter) {
        return None;
    }
    let entries = live.as_slice();
    let (place, seen) = screen.first_failing(object, entries, table, asked)?;
    Some(tell(entries, place, asked, seen))
}

fn tell(live: &[Entry], place: usize, asked: &Entry, seen: Seen) -> Told
    requires { place < length live.now }
    ensures held { slice_get live.now place ≡ Some result.held }
    ensures asked { result.asked ≡ asked.now.call }
    ensures would { result.would ≡ asked.now.reply }
    ensures seen { result.seen ≡ seen }
{
    Told {
        held: live[place],
        asked: asked.call,
        would: asked.reply,
        seen,
    }
}

// The entries of an iteration leave the screen, from the last on.
fn leave<T: SeqType, S: Screen<T>>(screen: &mut S, live: &[Entry], worker: u32, iter: u64)
    requires { S.stands_for screen.old live.now }
    ensures entries { S.stands_for screen.new (others_than worker iter live.now) }
    ensures same { (kind : ℕ) (table : RowMap) → S.suits screen.old kind table ↔ S.suits screen.new kind table }
{
    for place in (0..live.len()).rev() {
        let entry = &live[place];
        if is_entry_of(entry, worker, iter) {
            screen.left(entry);
        }
    }
}
