ghost use Rattle.std.specs.Prelude.{◌≡◌, ◌<◌, length, map, All, IfOk};
ghost use Rattle.lock_compiler.specs.LockModes.{incompatible};
ghost use Rattle.lock_compiler.specs.Reduced.{are_compatible, is_idle_mode, tells_alike, are_alike, mode_stays, staying, members_like, merged_mode, reduced};
ghost use Rattle.lock_compiler.specs.Wants.{mode_of, modes_of};

use crate::modes::{Mode, Modes};
use gx_base::NoMemory;
use std::alloc::Global;

/// Whether two modes are compatible, whichever of them is held.
fn are_compatible(modes: &Modes, x: u32, y: u32) -> bool
    requires one { x < length modes.now }
    requires other { y < length modes.now }
    ensures { result ≡ are_compatible modes.now x y }
{
    modes.compatible(x, y) && modes.compatible(y, x)
}

/// Whether one mode is incompatible with both of two others or with none of them, held, and so asked for.
fn tells_alike(modes: &Modes, x: u32, y: u32, other: u32) -> bool
    requires one { x < length modes.now }
    requires two { y < length modes.now }
    requires third { other < length modes.now }
    ensures { result ≡ tells_alike modes.now x y other }
{
    modes.compatible(x, other) == modes.compatible(y, other)
        && modes.compatible(other, x) == modes.compatible(other, y)
}

/// Whether a mode is compatible with all, held and asked for.
fn is_idle_mode(modes: &Modes, mode: u32) -> bool
    requires { mode < length modes.now }
    ensures { result ≡ is_idle_mode modes.now mode }
{
    for other in 0..modes.count() {
        if !are_compatible(modes, mode, other) {
            return false;
        }
    }
    true
}

/// Whether two modes are incompatible with the same modes, held and asked for.
fn are_alike(modes: &Modes, x: u32, y: u32) -> bool
    requires one { x < length modes.now }
    requires other { y < length modes.now }
    ensures { result ≡ are_alike modes.now x y }
{
    for other in 0..modes.count() {
        if !tells_alike(modes, x, y, other) {
            return false;
        }
    }
    true
}

/// Whether a mode isn't compatible with all, and none before it is like it.
fn mode_stays(modes: &Modes, mode: u32) -> bool
    requires { mode < length modes.now }
    ensures { result ≡ mode_stays modes.now mode }
{
    if is_idle_mode(modes, mode) {
        return false;
    }
    for earlier in 0..mode {
        if are_alike(modes, earlier, mode) {
            return false;
        }
    }
    true
}

fn staying(alloc: Global, modes: &Modes) -> Result<Vec<u32>, NoMemory>
    ensures { IfOk result (λ numbers. numbers.items ≡ staying modes.now) }
{
    let mut numbers = Vec::new(alloc);
    for mode in 0..modes.count() {
        if mode_stays(modes, mode) {
            numbers.push(mode)?;
        }
    }
    Ok(numbers)
}

/// The members of all modes that are like this one.
fn members_like(
    alloc: Global,
    modes: &Modes,
    mode: u32,
) -> Result<Vec<(u32, Option<u32>)>, NoMemory>
    requires { mode < length modes.now }
    ensures { IfOk result (λ members. members.items ≡ members_like modes.now mode (length modes.now)) }
{
    let mut members = Vec::new(alloc);
    for other in 0..modes.count() {
        if are_alike(modes, mode, other) {
            members.extend_from_slice(modes.members(other))?;
        }
    }
    Ok(members)
}

/// Whether a mode refuses each of these.
fn refusals(alloc: Global, modes: &Modes, mode: u32, numbers: &[u32]) -> Result<Vec<bool>, NoMemory>
    requires one { mode < length modes.now }
    requires others { All (λ number. number < length modes.now) numbers.now }
    ensures { IfOk result (λ refuses. refuses.items ≡ map (incompatible modes.now mode) numbers.now) }
{
    let mut refuses = Vec::with_capacity(alloc, numbers.len())?;
    for asked in numbers {
        refuses.push(!modes.compatible(mode, *asked))?;
    }
    Ok(refuses)
}

/// A mode that stays, with the members of all that are like it.
fn joined_mode(alloc: Global, modes: &Modes, mode: u32, numbers: &[u32]) -> Result<Mode, NoMemory>
    requires one { mode < length modes.now }
    requires listed { numbers.now ≡ staying modes.now }
    ensures { IfOk result (λ merged. mode_of merged ≡ merged_mode modes.now mode) }
{
    let members = members_like(alloc, modes, mode)?;
    let refuses = refusals(alloc, modes, mode, numbers)?;
    Ok(Mode { members, refuses })
}

/// The modes that stay.
fn all_merged(alloc: Global, modes: &Modes, numbers: &[u32]) -> Result<Vec<Mode>, NoMemory>
    requires { numbers.now ≡ staying modes.now }
    ensures { IfOk result (λ all. modes_of all.items ≡ reduced modes.now) }
{
    let mut all = Vec::with_capacity(alloc, numbers.len())?;
    for mode in numbers {
        all.push(joined_mode(alloc, modes, *mode, numbers)?)?;
    }
    Ok(all)
}

/// The same locks in fewer modes. A mode that is compatible with all is dropped, and modes that are incompatible
/// with the same modes, held and asked for, become one, in the place of the first of them.
pub fn reduce(alloc: Global, modes: &Modes) -> Result<Modes, NoMemory>
    ensures { IfOk result (λ fewer. fewer ≡ reduced modes.now) }
{
    let numbers = staying(alloc, modes)?;
    let merged = all_merged(alloc, modes, &numbers)?;
    Modes::from_modes(alloc, merged)
}
