//! The run of an operator by virtual workers over gates.

ghost use Rattle.std.specs.Prelude.{◌≡◌, ◌≤◌, ◌++◌, Err, IfOk, map, slice_get, [], false};
ghost use Rattle.gx_base.specs.Kinds.{kind_number};
ghost use Rattle.commit_book.specs.BookViews.{new_book};
ghost use Rattle.commit_book.specs.SerialRuns.{operator_of};
ghost use Rattle.speculation.specs.Limits.{Limit};
ghost use Rattle.schedules.specs.Draws.{scheduled_turns};
ghost use Rattle.rooms.specs.Values.{tells};
ghost use Rattle.rooms.specs.Visits.{AreGatesAndBook};
ghost use Rattle.sessions.specs.EventViews.{turns_of};
ghost use Rattle.iterate.specs.Plays.{AreNewFor, IsPlayed, PassesFirst, begun_machine, stop_of};
ghost use Rattle.traces.specs.Traces.{trace_text};
ghost use Rattle.loop_runs.specs.GateTables.{ServesGates};
ghost use Rattle.loop_runs.specs.LoopRooms.{states_in, last_book};

use commit_book::{Book, Operator};
use gate_core::Gate;
use gx_base::{Kind, NoMemory, SeqType, Table};
use iterate::{Played, Stop, Turn, play};
use rooms::{Value, VecRooms};
use run_words::RunOptions;
use schedules::schedule;
use std::alloc::Global;
use table_choice::{AnyScreen, screen_for};
use traces::put_trace;

/// A gate over an object, with the screen that its table calls for.
pub(crate) fn gate_over<T: SeqType>(
    alloc: Global,
    kind: Kind,
    object: T,
    table: Table,
) -> Result<Gate<T, AnyScreen>, NoMemory>
    requires serves { ServesGates kind table }
    requires of_kind { (T.state object).kind ≡ kind_number kind }
    ensures { IfOk result (λ gate. gate ≡ record { kind = kind_number kind; table = table; state = T.state object; done = []; live = []; mark = 0 }) }
{
    let screen = screen_for(alloc, kind, &table)?;
    Ok(Gate::new(alloc, object, kind, table, screen))
}

/// Runs an operator over gates, after which the book stands, by the schedule of the options.
pub(crate) fn run_values<T: SeqType, O: Operator>(
    alloc: Global,
    options: RunOptions,
    op: &O,
    values: Vec<Value<T, AnyScreen>>,
) -> Result<Played<T, AnyScreen>, Stop>
    requires unordered { O.is_ordered op.now ≡ false }
    requires workers { 1 ≤ options.workers }
    requires kinds { AreGatesAndBook (map tells values.items) }
    requires new { AreNewFor (operator_of O.Operator op.now) (slice_get values.items) }
    ensures played { IfOk result (λ played. IsPlayed (operator_of O.Operator op.now) (begun_machine (O.room_count op.now) (slice_get values.items)) options.workers (scheduled_turns options.seed options.workers options.turns) (turns_of played.trace.items) (slice_get played.values.items)) }
    ensures past { (limit : Limit) → result ≡ Err (stop_of limit) → PassesFirst (operator_of O.Operator op.now) (begun_machine (O.room_count op.now) (slice_get values.items)) options.workers (scheduled_turns options.seed options.workers options.turns) limit }
{
    let rooms = VecRooms::new(alloc, values);
    match schedule(alloc, options.seed, options.workers, options.turns) {
        Ok(turns) => play(alloc, rooms, op, options.workers, &turns),
        Err(NoMemory) => Err(Stop::NoMemory),
    }
}

/// Takes the objects out of their gates, and the book from beside them.
pub(crate) fn taken_out<T: SeqType>(
    alloc: Global,
    values: Vec<Value<T, AnyScreen>>,
) -> Result<(Vec<T>, Book), NoMemory>
    ensures objects { IfOk result (λ parts. map T.state parts.0.items ≡ states_in values.items) }
    ensures book { IfOk result (λ parts. parts.1 ≡ last_book (new_book false []) values.items) }
{
    let mut objects = Vec::new(alloc);
    let mut last = Book::empty(alloc);
    for value in values {
        match value {
            Value::Object(gate) => objects.push(gate.into_object())?,
            Value::Book(book) => last = book,
        }
    }
    Ok((objects, last))
}

/// A report with the lines of a run's turns after it that are wanted.
pub(crate) fn with_turns(
    report: Vec<u8>,
    trace: &[Turn],
    options: RunOptions,
) -> Result<Vec<u8>, NoMemory>
    ensures { IfOk result (λ text. text.items ≡ report.items ++ trace_text (record { turns = options.trace; told = options.told }) (turns_of trace.now)) }
{
    let mut text = report;
    put_trace(&mut text, trace, options.trace, options.told)?;
    Ok(text)
}
