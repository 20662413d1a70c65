//! Laws of the speculative machine, over its definitions alone. A caller of one of these empty functions
//! may use what it ensures.

ghost use Rattle.std.specs.Prelude.{◌≡◌, ℕ, true, List};
ghost use Rattle.commit_book.specs.BookViews.{can_name, is_named};
ghost use Rattle.gx_base.specs.Worklists.{is_before};
ghost use Rattle.gx_base.specs.declared.acts.Entry.{Entry};
ghost use Rattle.gx_base.specs.declared.calls.Call.{Call};
ghost use Rattle.gx_base.specs.declared.calls.Reply.{Reply};
ghost use Rattle.gx_base.specs.Plans.{Operator};
ghost use Rattle.speculation.specs.EventRows.{Happens};
ghost use Rattle.speculation.specs.Events.{Event, Conflict};
ghost use Rattle.speculation.specs.Limits.{EndsOrPasses};
ghost use Rattle.speculation.specs.Machines.{Machine, place_of, turn_at, turn};
ghost use Rattle.speculation.specs.Premises.{IsNew, ScheduledAsk, AsksCalls};
ghost use Rattle.speculation.specs.RunResults.{IsSerialInTheEnd, EndsOrCommits, HasNoTraceOfAborted, IsScheduledRun, IsWholeScheduledRun};
ghost use Rattle.speculation.specs.ScheduledRuns.{Run, begun, scheduled, played, AllBelow};

/// Every run is serial: the scheduled turns, the drain, and worker 0 alone for at most so many turns.
pub fn runs_are_serial()
    ensures { (op : Operator) (m : Machine) (workers : ℕ) (schedule : List ℕ) (turns : ℕ) → IsNew op m → AllBelow schedule workers → AsksCalls op m workers schedule turns
        → IsSerialInTheEnd op m (played op m workers schedule turns).machine }
{}

/// Every run ends, whatever numbers its calls have: worker 0 alone leaves nothing ready, or commits as many
/// items as one likes. The machine knows no limits. A loop with limits ends too: nothing is ready, or a
/// commit would pass a limit.
pub fn runs_end()
    ensures by_limit { (op : Operator) (m : Machine) (workers : ℕ) (schedule : List ℕ) → IsNew op m → AllBelow schedule workers
        → EndsOrPasses op m workers schedule }
    ensures by_count { (op : Operator) (m : Machine) (workers : ℕ) (schedule : List ℕ) (count : ℕ) → IsNew op m → AllBelow schedule workers
        → EndsOrCommits count op m workers schedule }
{}

/// At each moment of the scheduled turns, and after them, an aborted iteration has left no trace.
pub fn aborted_iterations_leave_no_trace()
    ensures scheduled { (op : Operator) (m : Machine) (schedule : List ℕ) → IsNew op m → ScheduledAsk op (begun m) schedule → HasNoTraceOfAborted m (scheduled op (begun m) schedule).machine }
    ensures played { (op : Operator) (m : Machine) (workers : ℕ) (schedule : List ℕ) (turns : ℕ) → IsNew op m → AsksCalls op m workers schedule turns
        → HasNoTraceOfAborted m (played op m workers schedule turns).machine }
{}

/// In each turn one event of the table happens, and no other, with one machine after it. So a conflict is
/// told exactly where a row is false.
pub fn one_event_happens_in_a_turn()
    ensures happens { (op : Operator) (m : Machine) (worker : ℕ) → Happens op m worker (turn_at op (place_of m worker) worker).event (turn op m worker) }
    ensures no_other { (op : Operator) (m : Machine) (worker : ℕ) (event : Event) (next : Machine) → Happens op m worker event next → event ≡ (turn_at op (place_of m worker) worker).event }
    ensures one_machine { (op : Operator) (m : Machine) (worker : ℕ) (event : Event) (next : Machine) → Happens op m worker event next → next ≡ turn op m worker }
{}

/// In an ordered loop the iteration of an entry in the way, where it holds a greater item, is named.
pub fn a_conflict_names_the_greater()
    ensures { (op : Operator) (m : Machine) (worker room : ℕ) (held : Entry) (call : Call) (would : Reply) (next : Machine) → Happens op m worker (Conflict room held call would) next
        → m.book.ordered ≡ true → is_before (m.sessions worker).item held.item ≡ true → can_name m.book held.worker held.iter (m.sessions worker).item ≡ true
        → is_named next.book held.worker held.iter ≡ true }
{}

/// A schedule has one run, and so has a whole run: only its drain isn't told by the table of events.
pub fn a_schedule_has_one_run()
    ensures is_one { (op : Operator) (r : Run) (schedule : List ℕ) → IsScheduledRun op r schedule (scheduled op r schedule) }
    ensures no_other { (op : Operator) (r last : Run) (schedule : List ℕ) → IsScheduledRun op r schedule last → last ≡ scheduled op r schedule }
    ensures is_one_whole { (op : Operator) (m : Machine) (workers : ℕ) (schedule : List ℕ) (turns : ℕ) → IsWholeScheduledRun op m workers schedule turns (played op m workers schedule turns) }
    ensures no_other_whole { (op : Operator) (m : Machine) (workers : ℕ) (schedule : List ℕ) (turns : ℕ) (last : Run) → IsWholeScheduledRun op m workers schedule turns last → last ≡ played op m workers schedule turns }
{}
