ghost use Rattle.std.specs.Prelude.{◌≡◌, ℕ, true, map, IfOk, IfNone, IfSome, OnOk, IfErr};
ghost use Rattle.gx_base.specs.Conditions.{condition_of};
ghost use Rattle.gx_base.specs.Kinds.{kind_number};
ghost use Rattle.gx_base.specs.Methods.{is_method};
ghost use Rattle.gx_base.specs.TableRows.{row_of};
ghost use Rattle.cond_lattice.specs.Grades.{is_simple, AreSimple};
ghost use Rattle.lock_compiler.specs.Compiled.{members_refuse, single_mode, compiled};
ghost use Rattle.lock_compiler.specs.CompileRefusals.{IsFirstSecondNotSimple, CompileRefusalFits};
ghost use Rattle.lock_compiler.specs.Wants.{mode_of, modes_of};

use crate::members::{all_members, members_refuse};
use crate::modes::{Mode, Modes};
use cond_lattice::{Grade, class};
use gx_base::{Cond, Kind, NoMemory, Table, method_at};
use std::alloc::Global;

/// Why a table has no modes.
#[derive(Clone, Copy, Debug, PartialEq, Eq, Drop)]
pub enum CompileRefuse {
    /// The first pair of methods, by their numbers, whose row isn't simple.
    NotSimple { first: u32, second: u32 },
    NoMemory,
}

impl From<NoMemory> for CompileRefuse {
    ghost use Rattle.std.specs.Prelude.{◌≡◌};
    ghost use Rattle.lock_compiler.specs.declared.compiling.CompileRefuse.TheVariants.{NoMemory as OutOfMemory};

    ghost from_gives = { λ _ refuse. refuse ≡ OutOfMemory };

    fn from(_refused: NoMemory) -> CompileRefuse {
        CompileRefuse::NoMemory
    }
}

fn is_simple(cond: &Cond) -> bool
    ensures { result ≡ is_simple (condition_of cond.now) }
{
    class(cond) == Grade::Simple
}

/// With one method first, the first second method whose row isn't simple.
fn first_not_simple(kind: Kind, table: &Table, first: u32) -> Option<u32>
    ensures none { IfNone result ((n : ℕ) → is_method (kind_number kind) n ≡ true → is_simple (row_of table.now first n) ≡ true) }
    ensures some { IfSome result (IsFirstSecondNotSimple (kind_number kind) (row_of table.now first)) }
{
    let mut place = 0;
    'seconds: while let Some(second) = method_at(kind, place) {
        if !is_simple(table.row(first, second)) {
            return Some(second);
        }
        place += 1;
    }
    None
}

/// Looks whether each row of a kind's methods is simple.
fn want_simple(kind: Kind, table: &Table) -> Result<(), CompileRefuse>
    ensures ok { OnOk result (AreSimple (kind_number kind) (row_of table.now)) }
    ensures refused { IfErr result (CompileRefusalFits (kind_number kind) (row_of table.now)) }
{
    let mut place = 0;
    'firsts: while let Some(first) = method_at(kind, place) {
        if let Some(second) = first_not_simple(kind, table, first) {
            return Err(CompileRefuse::NotSimple { first, second });
        }
        place += 1;
    }
    Ok(())
}

/// Whether a member, held, refuses each of these.
fn refusals(
    alloc: Global,
    table: &Table,
    held: (u32, Option<u32>),
    members: &[(u32, Option<u32>)],
) -> Result<Vec<bool>, NoMemory>
    ensures { IfOk result (λ refuses. refuses.items ≡ map (members_refuse (row_of table.now) held) members.now) }
{
    let mut refuses = Vec::with_capacity(alloc, members.len())?;
    for asked in members {
        refuses.push(members_refuse(table, held, *asked))?;
    }
    Ok(refuses)
}

/// The mode of one member.
fn single(
    alloc: Global,
    table: &Table,
    member: (u32, Option<u32>),
    all: &[(u32, Option<u32>)],
) -> Result<Mode, NoMemory>
    ensures { IfOk result (λ mode. mode_of mode ≡ single_mode (row_of table.now) all.now member) }
{
    let mut members = Vec::with_capacity(alloc, 1)?;
    members.push(member)?;
    let refuses = refusals(alloc, table, member, all)?;
    Ok(Mode { members, refuses })
}

/// The modes of members, one for each.
fn singles(
    alloc: Global,
    table: &Table,
    members: &[(u32, Option<u32>)],
) -> Result<Vec<Mode>, NoMemory>
    ensures { IfOk result (λ modes. modes_of modes.items ≡ map (single_mode (row_of table.now) members.now) members.now) }
{
    let mut modes = Vec::with_capacity(alloc, members.len())?;
    for member in members {
        modes.push(single(alloc, table, *member, members)?)?;
    }
    Ok(modes)
}

/// The modes that keep a table: one for each method of the kind as a whole, and one for each value of a method
/// that stands in an inequality of some row. They are numbered by method, the whole one first and then the values
/// by rising number. A table with a row that isn't simple has none.
pub fn compile(alloc: Global, kind: Kind, table: &Table) -> Result<Modes, CompileRefuse>
    ensures ok { OnOk result (AreSimple (kind_number kind) (row_of table.now)) }
    ensures modes { IfOk result (λ modes. modes ≡ compiled (kind_number kind) (row_of table.now)) }
    ensures refused { IfErr result (CompileRefusalFits (kind_number kind) (row_of table.now)) }
{
    want_simple(kind, table)?;
    let members = all_members(alloc, kind, table)?;
    let modes = singles(alloc, table, &members)?;
    let modes = Modes::from_modes(alloc, modes)?;
    Ok(modes)
}
