ghost use Rattle.std.specs.Prelude.{◌≡◌, pos};
ghost use Rattle.gx_base.specs.States.{State};
ghost use Rattle.gx_base.specs.TableRows.{row_of};
ghost use Rattle.gate_core.specs.Entries.{made_of};
ghost use Rattle.gate_core.specs.Replays.{AllSawRight, IsFirstFailing};
ghost use Rattle.gate_core.specs.Scans.{SeesFirstAlone, log_ok};

use crate::screens::Screen;
use cond_lattice::{Grade, table_class};
use gx_base::{Entry, Kind, Made, NoMemory, Seen, SeqType, Table, eval};

/// The plain scan: it looks at each uncommitted entry in turn, and keeps nothing.
#[derive(Clone, Copy, Debug, Default, PartialEq, Eq, Drop)]
pub struct ScanScreen;

impl ScanScreen {
    pub fn new() -> ScanScreen {
        ScanScreen
    }
}

impl<T: SeqType> Screen<T> for ScanScreen {
    ghost use Rattle.std.specs.Prelude.{◌≢◌, ⊤};
    ghost use Rattle.cond_lattice.specs.declared.grades.Grade.TheVariants.{General};
    ghost use Rattle.cond_lattice.specs.Grades.{table_grade};

    ghost stands_for = { λ screen entries. ⊤ };

    ghost has_room = { λ screen worker iter call. ⊤ };

    ghost suits = { λ screen kind table. table_grade kind (row_of table) ≢ General };

    fn fits(&self, kind: Kind, table: &Table) -> bool {
        table_class(kind, table) != Grade::General
    }

    fn make_room(&mut self, _asked: &Entry) -> Result<(), NoMemory> {
        Ok(())
    }

    fn first_failing(
        &mut self,
        _object: &mut T,
        live: &[Entry],
        table: &Table,
        asked: &Entry,
    ) -> Option<(usize, Seen)> {
        scan(live, table, asked)
    }

    fn entered(&mut self, _entry: &Entry) {}

    fn left(&mut self, _entry: &Entry) {}
}

// The first entry that is in the way of the asked one, by what each saw when it was made.
pub(crate) fn scan(live: &[Entry], table: &Table, asked: &Entry) -> Option<(usize, Seen)>
    requires { SeesFirstAlone (row_of table.now) }
    ensures { (s : State) → AllSawRight (row_of table.now) s live.now → IsFirstFailing (row_of table.now) s live.now asked.now result }
{
    for (place, held) in live.iter().enumerate() {
        if !may_stand(held, asked, table) {
            return Some((place, seen_by(held)));
        }
    }
    None
}

fn may_stand(held: &Entry, asked: &Entry, table: &Table) -> bool
    ensures { result ≡ log_ok (row_of table.now) held.now asked.now }
{
    let same_iteration = held.worker == asked.worker && held.iter == asked.iter;
    same_iteration
        || eval(
            table.row(held.call.method, asked.call.method),
            &made(held),
            &made(asked),
            seen_by(held),
        )
}

fn made(entry: &Entry) -> Made
    ensures { result ≡ made_of entry.now }
{
    Made {
        call: entry.call,
        reply: entry.reply,
    }
}

fn seen_by(held: &Entry) -> Seen
    ensures { result ≡ record { first = held.now.seen; second = pos 0 } }
{
    Seen {
        first: held.seen,
        second: 0,
    }
}
