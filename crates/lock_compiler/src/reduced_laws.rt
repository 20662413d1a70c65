//! Further laws of lock modes, over their definitions alone. A caller of one of these empty functions may use what it
//! ensures.

ghost use Rattle.std.specs.Prelude.{◌≡◌, ◌<◌, ℕ, false, length, []};
ghost use Rattle.gx_base.specs.declared.calls.Made.{Made};
ghost use Rattle.gx_base.specs.Methods.{is_method};
ghost use Rattle.gx_base.specs.Tables.{Rows};
ghost use Rattle.lock_compiler.specs.LockModes.{LockModes, needs_of};
ghost use Rattle.lock_compiler.specs.Compiled.{compiled};
ghost use Rattle.lock_compiler.specs.Reduced.{is_idle_mode, are_alike, reduced};

/// A call of a method that isn't the kind's needs no locks.
pub fn foreign_calls_need_no_locks()
    ensures compiled { (kind : ℕ) (rows : Rows) (made : Made) → is_method kind made.call.method ≡ false → needs_of (compiled kind rows) made ≡ [] }
    ensures reduced { (kind : ℕ) (rows : Rows) (made : Made) → is_method kind made.call.method ≡ false → needs_of (reduced (compiled kind rows)) made ≡ [] }
{}

/// What modes are reduced to can't be made fewer by the same rules: none is compatible with all, and no two are
/// incompatible with the same ones.
pub fn reduced_modes_are_few()
    ensures busy { (modes : LockModes) (mode : ℕ) → mode < length (reduced modes) → is_idle_mode (reduced modes) mode ≡ false }
    ensures apart { (modes : LockModes) (earlier mode : ℕ) → earlier < mode → mode < length (reduced modes) → are_alike (reduced modes) earlier mode ≡ false }
{}
