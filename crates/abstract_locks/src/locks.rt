ghost use Rattle.std.specs.Prelude.{◌≡◌, not, pos, position};
ghost use Rattle.gx_base.specs.declared.calls.Seen.{Seen};
ghost use Rattle.gx_base.specs.Conditions.{holds};
ghost use Rattle.gx_base.specs.Kinds.{kind_number};
ghost use Rattle.gx_base.specs.TableRows.{row_of};
ghost use Rattle.gx_base.specs.Tables.{KeepsToKind};
ghost use Rattle.gate_core.specs.Entries.{made_of};
ghost use Rattle.gate_core.specs.Scans.{log_ok};

use crate::clashing::{are_methods_of, calls_clash};
use gate_core::{Entry, Screen};
use gx_base::{Kind, Made, NoMemory, Seen, SeqType, Table};
use lock_compiler::{CompileRefuse, Modes, compile, reduce};
use std::alloc::Global;
use std::marker::Model;

/// Finds conflicts by locks: it keeps the modes of a table, and the table, by which it knows what it may serve.
#[derive(Debug, Drop)]
pub struct LockScreen {
    kind: Kind,
    table: Table,
    modes: Modes,
}

impl Model for LockScreen {
    ghost use Rattle.gx_base.specs.Kinds.{kind_number};
    ghost use Rattle.abstract_locks.specs.LockScreens.{Locks, locks_code, AreModesOf};

    ghost Value = { Locks };

    ghost coded = { locks_code };

    ghost view = { λ kept. record { kind = kind_number kept.kind; table = kept.table } };

    ghost invariant = { λ kept. AreModesOf (record { kind = kind_number kept.kind; table = kept.table }) kept.modes };
}

impl LockScreen {
    ghost use Rattle.std.specs.Prelude.{OnOk, IfOk, IfErr};
    ghost use Rattle.cond_lattice.specs.Grades.{AreSimple};
    ghost use Rattle.lock_compiler.specs.CompileRefusals.{CompileRefusalFits};

    /// A screen for a table each of whose rows is simple, for a kind's methods.
    pub fn new(alloc: Global, kind: Kind, table: &Table) -> Result<LockScreen, CompileRefuse>
        ensures ok { OnOk result (AreSimple (kind_number kind) (row_of table.now)) }
        ensures made { IfOk result (λ screen. screen ≡ record { kind = kind_number kind; table = table.now }) }
        ensures refused { IfErr result (CompileRefusalFits (kind_number kind) (row_of table.now)) }
    {
        let compiled = compile(alloc, kind, table)?;
        let modes = reduce(alloc, &compiled)?;
        let table = table.copy()?;
        Ok(LockScreen { kind, table, modes })
    }

    // Whether two calls exclude each other. Where one of them isn't of the kind, it needs no locks.
    fn exclude(&self, held: &Made, asked: &Made) -> bool
        requires { KeepsToKind self.now.kind (row_of self.now.table) }
        ensures { (seen : Seen) → result ≡ not (holds (row_of self.now.table held.now.call.method asked.now.call.method) held.now asked.now seen) }
    {
        !are_methods_of(self.kind, held.call.method, asked.call.method)
            || calls_clash(&self.modes, held, asked)
    }

    // Entries of one iteration are never in each other's way.
    fn is_in_the_way(&self, held: &Entry, asked: &Entry) -> bool
        requires { KeepsToKind self.now.kind (row_of self.now.table) }
        ensures { result ≡ not (log_ok (row_of self.now.table) held.now asked.now) }
    {
        let same_iteration = held.worker == asked.worker && held.iter == asked.iter;
        !same_iteration && self.exclude(&made(held), &made(asked))
    }

    // The place of the first entry that is in the way.
    fn first_in_the_way(&self, live: &[Entry], asked: &Entry) -> Option<usize>
        requires { KeepsToKind self.now.kind (row_of self.now.table) }
        ensures { result ≡ position (λ held. not (log_ok (row_of self.now.table) held asked.now)) live.now }
    {
        live.iter().position(|held| self.is_in_the_way(held, asked))
    }
}

impl<T: SeqType> Screen<T> for LockScreen {
    ghost use Rattle.std.specs.Prelude.{⊤};
    ghost use Rattle.abstract_locks.specs.LockScreens.{Serves};

    ghost stands_for = { λ screen entries. ⊤ };

    ghost has_room = { λ screen worker iter call. ⊤ };

    ghost suits = { λ screen kind table. Serves screen kind table };

    fn fits(&self, kind: Kind, table: &Table) -> bool {
        kind == self.kind && table.equals(&self.table)
    }

    fn make_room(&mut self, _asked: &Entry) -> Result<(), NoMemory> {
        Ok(())
    }

    fn first_failing(
        &mut self,
        _object: &mut T,
        live: &[Entry],
        _table: &Table,
        asked: &Entry,
    ) -> Option<(usize, Seen)> {
        // A proof knows what holds of every screen where one of its fields is read.
        let _kind = &self.kind;
        let place = self.first_in_the_way(live, asked)?;
        Some((place, seen_by(&live[place])))
    }

    fn entered(&mut self, _entry: &Entry) {}

    fn left(&mut self, _entry: &Entry) {}
}

fn made(entry: &Entry) -> Made
    ensures { result ≡ made_of entry.now }
{
    Made {
        call: entry.call,
        reply: entry.reply,
    }
}

// What the log has of the state function.
fn seen_by(held: &Entry) -> Seen
    ensures { result ≡ record { first = held.now.seen; second = pos 0 } }
{
    Seen {
        first: held.seen,
        second: 0,
    }
}
