ghost use Rattle.std.specs.Prelude.{◌≢◌, IfOk};
ghost use Rattle.gx_base.specs.Kinds.{kind_number};
ghost use Rattle.gx_base.specs.TableRows.{row_of};
ghost use Rattle.cond_lattice.specs.declared.grades.Grade.TheVariants.{General};
ghost use Rattle.cond_lattice.specs.Grades.{table_grade};
ghost use Rattle.table_choice.specs.AnyScreens.{Suits, IsOfClass};

use abstract_locks::{CompileRefuse, LockScreen};
use cond_lattice::{Grade, table_class};
use forward_gate::ForwardScreen;
use gate_core::{Entry, Screen};
use gx_base::{Kind, NoMemory, Seen, SeqType, Table};
use std::alloc::Global;

/// A screen of the sort that its table's class calls for.
#[derive(Debug, Drop)]
pub enum AnyScreen {
    /// By lock modes, for tables of simple rows. Behind a pointer, since a screen is moved with the gate that it serves.
    Lock(Box<LockScreen>),
    /// By what the log remembers.
    Forward(ForwardScreen),
}

/// The screen of a table.
pub fn screen_for(alloc: Global, kind: Kind, table: &Table) -> Result<AnyScreen, NoMemory>
    requires { table_grade (kind_number kind) (row_of table.now) ≢ General }
    ensures suits { IfOk result (λ screen. Suits screen (kind_number kind) table.now) }
    ensures class { IfOk result (IsOfClass (kind_number kind) table.now) }
{
    if table_class(kind, table) != Grade::Simple {
        return Ok(AnyScreen::Forward(ForwardScreen::new()));
    }
    match LockScreen::new(alloc, kind, table) {
        Ok(locks) => Ok(AnyScreen::Lock(Box::new(alloc, locks)?)),
        Err(CompileRefuse::NoMemory) => Err(NoMemory),
        Err(CompileRefuse::NotSimple { .. }) => unreachable!(),
    }
}

impl<T: SeqType> Screen<T> for AnyScreen {
    ghost use Rattle.std.specs.Prelude.{⊤};

    ghost stands_for = { λ screen entries. ⊤ };

    ghost has_room = { λ screen worker iter call. ⊤ };

    ghost suits = { λ screen kind table. Suits screen kind table };

    fn fits(&self, kind: Kind, table: &Table) -> bool {
        match self {
            AnyScreen::Lock(locks) => <LockScreen as Screen<T>>::fits(&**locks, kind, table),
            AnyScreen::Forward(screen) => <ForwardScreen as Screen<T>>::fits(screen, kind, table),
        }
    }

    fn make_room(&mut self, asked: &Entry) -> Result<(), NoMemory> {
        match self {
            AnyScreen::Lock(locks) => <LockScreen as Screen<T>>::make_room(&mut **locks, asked),
            AnyScreen::Forward(screen) => <ForwardScreen as Screen<T>>::make_room(screen, asked),
        }
    }

    fn first_failing(
        &mut self,
        object: &mut T,
        live: &[Entry],
        table: &Table,
        asked: &Entry,
    ) -> Option<(usize, Seen)> {
        match self {
            AnyScreen::Lock(locks) => locks.first_failing(object, live, table, asked),
            AnyScreen::Forward(screen) => screen.first_failing(object, live, table, asked),
        }
    }

    fn entered(&mut self, entry: &Entry) {
        match self {
            AnyScreen::Lock(locks) => <LockScreen as Screen<T>>::entered(&mut **locks, entry),
            AnyScreen::Forward(screen) => <ForwardScreen as Screen<T>>::entered(screen, entry),
        }
    }

    fn left(&mut self, entry: &Entry) {
        match self {
            AnyScreen::Lock(locks) => <LockScreen as Screen<T>>::left(&mut **locks, entry),
            AnyScreen::Forward(screen) => <ForwardScreen as Screen<T>>::left(screen, entry),
        }
    }
}
