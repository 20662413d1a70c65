//! The turns of runs that were worked out by hand.

ghost use Rattle.std.specs.Prelude.{◌≡◌, ℕ, true};
ghost use Rattle.gx_base.specs.TableRows.{RowMap};
ghost use Rattle.kind_tables.specs.FlowTables.{flow_tables};
ghost use Rattle.preflow_push.specs.Discharge.{discharge_operator};
ghost use Rattle.shared_sets.specs.CellsTables.{cells_tables};
ghost use Rattle.speculation.specs.Premises.{IsNew};
ghost use Rattle.speculation.specs.RunResults.{IsSerialInTheEnd};
ghost use Rattle.speculation.specs.ScheduledRuns.{is_empty, begun, scheduled, drained, played};
ghost use Rattle.speculation_cases.specs.Beginnings.{HasPreciseRows};
ghost use Rattle.speculation_cases.specs.Diamond.{net, diamond, alternating, turns_of_both, turns_with_drain};
ghost use Rattle.speculation_cases.specs.NamedReader.{setter_and_reader, one_setter, reader_schedule, turns_of_reader};
ghost use Rattle.speculation_cases.specs.SmallConflict.{setters, two_setters, setters_schedule, turns_of_setters};

/// The machines of these cases are new ones, as the laws of the speculative machine ask.
pub fn the_cases_begin_new()
    ensures diamond { (table : RowMap) → HasPreciseRows flow_tables table → IsNew (discharge_operator net) (diamond table) }
    ensures reader { (table : RowMap) → HasPreciseRows cells_tables table → IsNew setter_and_reader (one_setter table) }
    ensures setters { (table : RowMap) → HasPreciseRows cells_tables table → IsNew setters (two_setters table) }
{}

/// An ordered loop of two bodies that read one cell and then set it: a conflict that names, one that
/// undoes, and one of an iteration without entries.
pub fn two_setters_in_conflict()
    ensures { (table : RowMap) → HasPreciseRows cells_tables table → (scheduled setters (begun (two_setters table)) setters_schedule).trace ≡ turns_of_setters }
{}

/// An ordered loop in which a finished iteration waits, is named by one of a smaller item, and undoes.
pub fn a_named_iteration_undoes()
    ensures { (table : RowMap) → HasPreciseRows cells_tables table → (scheduled setter_and_reader (begun (one_setter table)) reader_schedule).trace ≡ turns_of_reader }
{}

/// The diamond of four nodes, with two workers that take turns: forty turns, after which nothing is
/// ready. Both gains of node 4 are admitted beside each other.
pub fn the_diamond_with_two_workers()
    ensures { (table : RowMap) → HasPreciseRows flow_tables table → (scheduled (discharge_operator net) (begun (diamond table)) (alternating 50)).trace ≡ turns_of_both }
{}

/// The run of the diamond is serial, and nothing is ready at its end, with any number of turns of worker 0 after the
/// others.
pub fn the_diamond_is_serial()
    ensures serial { (table : RowMap) (turns : ℕ) → HasPreciseRows flow_tables table → IsSerialInTheEnd (discharge_operator net) (diamond table) (played (discharge_operator net) (diamond table) 2 (alternating 50) turns).machine }
    ensures ends { (table : RowMap) (turns : ℕ) → HasPreciseRows flow_tables table → is_empty (played (discharge_operator net) (diamond table) 2 (alternating 50) turns).machine.book.ready ≡ true }
{}

/// The same turns, cut off after six: the calls of both workers are undone, those of worker 0 first.
pub fn the_drained_diamond()
    ensures { (table : RowMap) → HasPreciseRows flow_tables table → (drained (discharge_operator net) (diamond table) 2 (alternating 3)).trace ≡ turns_with_drain }
{}
