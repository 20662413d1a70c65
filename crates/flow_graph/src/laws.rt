//! The laws of the calls and of the tables of a flow shard. They speak of the meanings of calls alone, so
//! the functions do nothing.
ghost use Rattle.std.specs.Prelude.{◌≡◌};
ghost use Rattle.gx_base.specs.declared.calls.Call.{Call};
ghost use Rattle.gx_base.specs.declared.kinds.Choice.{Choice};
ghost use Rattle.gx_base.specs.declared.kinds.Kind.TheVariants.{Flow};
ghost use Rattle.gx_base.specs.Kinds.{kind_number};
ghost use Rattle.gx_base.specs.States.{State};
ghost use Rattle.gx_base.specs.Steps.{IsState, IsCall};
ghost use Rattle.gx_base.specs.Tables.{IsValid, IsUndone};
ghost use Rattle.kind_tables.specs.TablesOfKinds.{shipped_rows};

/// Wherever a row of a shipped table is true, its calls may be swapped, and what rows with these calls
/// first see stays.
pub fn shipped_tables_are_valid()
    ensures { (choice : Choice) → IsValid (kind_number Flow) (shipped_rows Flow choice) }
{}

/// Whatever the rows say, the inverse of a call gives the state before it.
pub fn calls_are_undone()
    ensures { (s : State) (call : Call) → s.kind ≡ kind_number Flow → IsState s → IsCall call → IsUndone s call }
{}
