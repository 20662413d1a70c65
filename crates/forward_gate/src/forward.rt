ghost use Rattle.std.specs.Prelude.{◌≡◌, pos, not, position};
ghost use Rattle.gx_base.specs.TableRows.{row_of};
ghost use Rattle.gate_core.specs.Entries.{made_of};
ghost use Rattle.gate_core.specs.Scans.{log_ok};

use cond_lattice::{Grade, table_class};
use gate_core::{Entry, Screen};
use gx_base::{Kind, Made, NoMemory, Seen, SeqType, Table, eval};

/// Finds conflicts by the log: of each uncommitted call its reply and what it saw.
#[derive(Clone, Copy, Debug, Default, PartialEq, Eq, Drop)]
pub struct ForwardScreen;

impl ForwardScreen {
    pub fn new() -> ForwardScreen {
        ForwardScreen
    }
}

impl<T: SeqType> Screen<T> for ForwardScreen {
    ghost use Rattle.std.specs.Prelude.{◌≢◌, ⊤};
    ghost use Rattle.cond_lattice.specs.declared.grades.Grade.TheVariants.{General};
    ghost use Rattle.cond_lattice.specs.Grades.{table_grade};

    ghost stands_for = { λ screen entries. ⊤ };

    ghost has_room = { λ screen worker iter call. ⊤ };

    ghost suits = { λ screen kind table. table_grade kind (row_of table) ≢ General };

    fn fits(&self, kind: Kind, table: &Table) -> bool {
        table_class(kind, table) != Grade::General
    }

    fn make_room(&mut self, _asked: &Entry) -> Result<(), NoMemory> {
        Ok(())
    }

    fn first_failing(
        &mut self,
        _object: &mut T,
        live: &[Entry],
        table: &Table,
        asked: &Entry,
    ) -> Option<(usize, Seen)> {
        let place = first_in_the_way(live, table, asked)?;
        Some((place, seen_by(&live[place])))
    }

    fn entered(&mut self, _entry: &Entry) {}

    fn left(&mut self, _entry: &Entry) {}
}

// The place of the first entry whose row is false, by what each entry logged.
fn first_in_the_way(live: &[Entry], table: &Table, asked: &Entry) -> Option<usize>
    ensures { result ≡ position (λ held. not (log_ok (row_of table.now) held asked.now)) live.now }
{
    live.iter()
        .position(|held| is_in_the_way(held, table, asked))
}

// Entries of one iteration are never in each other's way.
fn is_in_the_way(held: &Entry, table: &Table, asked: &Entry) -> bool
    ensures { result ≡ not (log_ok (row_of table.now) held.now asked.now) }
{
    let same_iteration = held.worker == asked.worker && held.iter == asked.iter;
    let row = table.row(held.call.method, asked.call.method);
    !(same_iteration || eval(row, &made(held), &made(asked), seen_by(held)))
}

fn made(entry: &Entry) -> Made
    ensures { result ≡ made_of entry.now }
{
    Made {
        call: entry.call,
        reply: entry.reply,
    }
}

// What the log has of the state function. A row of a table that this screen suits asks for no other.
fn seen_by(held: &Entry) -> Seen
    ensures { result ≡ record { first = held.now.seen; second = pos 0 } }
{
    Seen {
        first: held.seen,
        second: 0,
    }
}
