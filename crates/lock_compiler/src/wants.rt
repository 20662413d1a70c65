ghost use Rattle.std.specs.Prelude.{◌≡◌, ℕ, ◌+◌, ◌^◌, ◌<◌, ◌≤◌, ◌++◌, ◌∷◌, [], ◌==◌, length, slice_get, All, ◌↔◌, IsTrue, IfOk, OnOk, if◌then◌else◌};
ghost use Rattle.lock_compiler.specs.LockModes.{Member, Want, wants_among, wants_of};
ghost use Rattle.lock_compiler.specs.Wants.{is_for, modes_of, wanted_in};
ghost use Rattle.std.specs.Bool.{OnTrue};
ghost use Rattle.std.specs.List.{position_from};

use crate::modes::Mode;
use gx_base::NoMemory;
use std::alloc::Global;

/// What the calls of a method want: modes, each with the number of a value or with none.
#[derive(Debug, Drop)]
pub(crate) struct MethodWants {
    pub(crate) method: u32,
    pub(crate) wants: Vec<(u32, Option<u32>)>,
}

/// What a call of a method wants at a place.
pub(crate) fn want_at(lists: &[MethodWants], method: u32, i: usize) -> Option<(u32, Option<u32>)>
    ensures { result ≡ slice_get (wanted_in lists.now method) i }
{
    for list in lists {
        if list.method == method {
            return list.wants.get(i).copied();
        }
    }
    None
}

fn method_index(lists: &[MethodWants], method: u32) -> Option<usize>
    ensures { result ≡ position_from (is_for method) 0 lists.now }
{
    lists.iter().position(|list| list.method == method)
}

/// Adds one more want of a method.
fn add_want(
    lists: &mut Vec<MethodWants>,
    method: u32,
    want: (u32, Option<u32>),
) -> Result<(), NoMemory>
    ensures { OnOk result ((m : ℕ) → wanted_in lists.new.items m
        ≡ wanted_in lists.old.items m ++ (if method == m then want ∷ [] else [])) }
{
    let alloc = *lists.allocator();
    match method_index(lists, method) {
        Some(place) => {
            let list = &mut lists[place];
            list.wants.push(want)?;
        }
        None => {
            let mut wants = Vec::new(alloc);
            wants.push(want)?;
            lists.push(MethodWants { method, wants })?;
        }
    }
    Ok(())
}

/// Adds what calls want of a mode with a number and these members.
fn add_mode(
    lists: &mut Vec<MethodWants>,
    mode: u32,
    members: &[(u32, Option<u32>)],
) -> Result<(), NoMemory>
    ensures { OnOk result ((m : ℕ) → wanted_in lists.new.items m
        ≡ wanted_in lists.old.items m ++ wants_among mode members.now m) }
{
    for member in members {
        add_want(lists, member.0, (mode, member.1))?;
    }
    Ok(())
}

/// What calls want of these modes, by method.
pub(crate) fn wants_by_method(alloc: Global, modes: &[Mode]) -> Result<Vec<MethodWants>, NoMemory>
    requires { length modes.now < 2 ^ 32 }
    ensures { IfOk result (λ lists. (m : ℕ) → wanted_in lists.items m ≡ wants_of (modes_of modes.now) m) }
{
    let mut lists = Vec::new(alloc);
    for (number, mode) in modes.iter().enumerate() {
        add_mode(&mut lists, number as u32, &mode.members)?;
    }
    Ok(lists)
}

fn is_few(wants: &[(u32, Option<u32>)]) -> bool
    ensures { IsTrue result ↔ (length wants.now < 2 ^ 32) }
{
    wants.len() <= u32::MAX as usize
}

/// Whether there are few enough wants of each method to number them.
pub(crate) fn are_few(lists: &[MethodWants]) -> bool
    ensures { OnTrue result (All (λ list. length list.wants.items < 2 ^ 32) lists.now) }
{
    for list in lists {
        if !is_few(&list.wants) {
            return false;
        }
    }
    true
}
