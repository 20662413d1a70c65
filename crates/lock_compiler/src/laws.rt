//! Laws of lock modes, over their definitions alone. A caller of one of these empty functions may use what it
//! ensures.

ghost use Rattle.std.specs.Prelude.{◌≡◌, ◌↔◌, ℕ, true, false, Contains};
ghost use Rattle.std.specs.List.Sorted.{IsStrictlyIncreasing};
ghost use Rattle.gx_base.specs.declared.calls.Made.{Made};
ghost use Rattle.gx_base.specs.declared.calls.Seen.{Seen};
ghost use Rattle.gx_base.specs.Conditions.{holds};
ghost use Rattle.gx_base.specs.Methods.{is_method};
ghost use Rattle.gx_base.specs.Tables.{Rows};
ghost use Rattle.cond_lattice.specs.Grades.{AreSimple};
ghost use Rattle.lock_compiler.specs.LockModes.{LockModes, Clash};
ghost use Rattle.lock_compiler.specs.Compiled.{compiled, locked_numbers, StandsInSome};
ghost use Rattle.lock_compiler.specs.Reduced.{reduced};

/// Two calls of a kind's methods clash exactly where their row is false, under the modes of a table of simple rows
/// and under what they are reduced to.
pub fn calls_clash_where_rows_are_false()
    ensures compiled { (kind : ℕ) (rows : Rows) (first second : Made) (seen : Seen) → AreSimple kind rows
        → is_method kind first.call.method ≡ true → is_method kind second.call.method ≡ true
        → (Clash (compiled kind rows) first second ↔ (holds (rows first.call.method second.call.method) first second seen ≡ false)) }
    ensures reduced { (kind : ℕ) (rows : Rows) (first second : Made) (seen : Seen) → AreSimple kind rows
        → is_method kind first.call.method ≡ true → is_method kind second.call.method ≡ true
        → (Clash (reduced (compiled kind rows)) first second ↔ (holds (rows first.call.method second.call.method) first second seen ≡ false)) }
{}

/// Whatever the modes, the same calls clash under what they are reduced to.
pub fn reduced_modes_clash_alike()
    ensures { (modes : LockModes) (first second : Made) → Clash (reduced modes) first second ↔ Clash modes first second }
{}

/// What is locked of a method's calls, besides the method as a whole, are the values that stand in an inequality of
/// some row of the method, each once.
pub fn locked_numbers_are_those_of_inequalities()
    ensures exactly { (kind : ℕ) (rows : Rows) (method number : ℕ) → AreSimple kind rows → is_method kind method ≡ true
        → (Contains (locked_numbers kind rows method) number ↔ StandsInSome kind rows method number) }
    ensures rising { (kind : ℕ) (rows : Rows) (method : ℕ) → IsStrictlyIncreasing (locked_numbers kind rows method) }
{}
