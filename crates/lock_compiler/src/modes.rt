ghost use Rattle.std.specs.Prelude.{◌≡◌, ◌^◌, ◌<◌, length, map, not, slice_get, IfOk, IfSome};
ghost use Rattle.gx_base.specs.Conditions.{value_of};
ghost use Rattle.lock_compiler.specs.LockModes.{members_at, incompatible, locked_value, need_of, needs_of};
ghost use Rattle.lock_compiler.specs.Wants.{wanted_in};

use crate::wants::{MethodWants, are_few, want_at, wants_by_method};
use gx_base::{Call, Made, NoMemory, Reply};
use std::alloc::Global;
use std::marker::Model;

/// What a call locks: a value, in a mode by its number.
#[derive(Clone, Copy, Debug, PartialEq, Eq, Drop)]
pub struct Need {
    pub mode: u32,
    pub value: i64,
}

/// A mode as it is kept: its members, each a method with the number of a value or with none, and whether it
/// refuses each mode that is asked for.
#[derive(Debug, Drop)]
pub(crate) struct Mode {
    pub(crate) members: Vec<(u32, Option<u32>)>,
    pub(crate) refuses: Vec<bool>,
}

/// Lock modes, numbered from 0.
#[derive(Debug, Drop)]
pub struct Modes {
    modes: Vec<Mode>,
    /// What calls want, by method, so that a need is found without a walk over the modes.
    wants: Vec<MethodWants>,
}

impl Model for Modes {
    ghost use Rattle.lock_compiler.specs.LockModes.{LockModes, modes_code};

    ghost Value = { LockModes };

    ghost coded = { modes_code };

    ghost use Rattle.lock_compiler.specs.Wants.{modes_of, AreKeptWants};

    ghost view = { λ kept. modes_of kept.modes.items };

    ghost invariant = { λ kept. AreKeptWants (modes_of kept.modes.items) kept.wants.items };
}

/// The value at a place among the arguments and the replies of a call.
fn value(made: &Made, place: u32) -> i64
    ensures { result ≡ value_of made.now place }
{
    match place {
        0 => made.call.a,
        1 => made.call.b,
        2 => made.call.c,
        3 => made.call.d,
        4 => made.reply.p,
        5 => made.reply.q,
        6 => made.reply.r,
        7 => made.reply.s,
        _ => 0,
    }
}

fn locked(made: &Made, place: Option<u32>) -> i64
    ensures { result ≡ locked_value made.now place }
{
    match place {
        Some(place) => value(made, place),
        None => 0,
    }
}

/// What a call with its reply needs at a place.
fn need_at(lists: &[MethodWants], made: &Made, i: usize) -> Option<Need>
    ensures { result ≡ slice_get (map (need_of made.now) (wanted_in lists.now made.now.call.method)) i }
{
    match want_at(lists, made.call.method, i) {
        Some((mode, place)) => Some(Need {
            mode,
            value: locked(made, place),
        }),
        None => None,
    }
}

impl Modes {
    ghost use Rattle.lock_compiler.specs.Wants.{modes_of};

    /// The modes with these numbers, with what calls want of them.
    pub(crate) fn from_modes(alloc: Global, modes: Vec<Mode>) -> Result<Modes, NoMemory>
        ensures { IfOk result (λ made. made ≡ modes_of modes.items) }
    {
        if modes.len() > u32::MAX as usize {
            return Err(NoMemory);
        }
        let wants = wants_by_method(alloc, &modes)?;
        if !are_few(&wants) {
            return Err(NoMemory);
        }
        Ok(Modes { modes, wants })
    }

    /// How many modes there are.
    pub fn count(&self) -> u32
        ensures { result ≡ length self.now }
    {
        self.modes.len() as u32
    }

    /// The members of a mode: methods, each with the number of a value, or with none for the method as a whole.
    pub fn members(&self, mode: u32) -> &[(u32, Option<u32>)]
        requires { mode < length self.now }
        ensures { result.now ≡ members_at self.now mode }
    {
        &self.modes[mode as usize].members
    }

    /// What a call with its reply needs, by place, in the order of its method's modes. None past the last.
    pub fn needs(&self, call: Call, reply: Reply, i: u32) -> Option<Need>
        ensures need { result ≡ slice_get (needs_of self.now (record { call = call; reply = reply })) i }
        ensures mode { IfSome result (λ need. need.mode < length self.now) }

        // So a place counts them.
        ensures few { length (needs_of self.now (record { call = call; reply = reply })) < 2 ^ 32 }
    {
        need_at(&self.wants, &Made { call, reply }, i as usize)
    }

    /// Whether a held mode lets one that is asked for have the same value.
    pub fn compatible(&self, held: u32, asked: u32) -> bool
        requires held { held < length self.now }
        requires asked { asked < length self.now }
        ensures { result ≡ not (incompatible self.now held asked) }
    {
        match self.modes[held as usize].refuses.get(asked as usize) {
            Some(refused) => !*refused,
            None => true,
        }
    }
}
