ghost use Rattle.std.specs.Prelude.{◌≡◌, ◌&&◌, ◌↔◌, ◌<◌, length, IsTrue};
ghost use Rattle.std.specs.List.{Any};
ghost use Rattle.gx_base.specs.Kinds.{kind_number};
ghost use Rattle.gx_base.specs.Methods.{is_method};
ghost use Rattle.lock_compiler.specs.LockModes.{needs_of, Clash};
ghost use Rattle.abstract_locks.specs.LockScreens.{Excludes};

use gx_base::{Kind, Made, method_at};
use lock_compiler::{Modes, Need};

// Whether a held need keeps out one that is asked for.
fn excludes(modes: &Modes, held: Need, asked: Need) -> bool
    requires held { held.mode < length modes.now }
    requires asked { asked.mode < length modes.now }
    ensures { IsTrue result ↔ Excludes modes.now held asked }
{
    held.value == asked.value && !modes.compatible(held.mode, asked.mode)
}

// Whether a held need keeps out a call.
fn excludes_call(modes: &Modes, held: Need, asked: &Made) -> bool
    requires { held.mode < length modes.now }
    ensures { IsTrue result ↔ Any (Excludes modes.now held) (needs_of modes.now asked.now) }
{
    let mut place = 0;
    'asks: while let Some(need) = modes.needs(asked.call, asked.reply, place) {
        if excludes(modes, held, need) {
            return true;
        }
        place += 1;
    }
    false
}

// Whether what a held call needs keeps out another call.
pub(crate) fn calls_clash(modes: &Modes, held: &Made, asked: &Made) -> bool
    ensures { IsTrue result ↔ Clash modes.now held.now asked.now }
{
    let mut place = 0;
    'holds: while let Some(need) = modes.needs(held.call, held.reply, place) {
        if excludes_call(modes, need, asked) {
            return true;
        }
        place += 1;
    }
    false
}

fn is_method_of(kind: Kind, method: u32) -> bool
    ensures { result ≡ is_method (kind_number kind) method }
{
    match method_at(kind, 0) {
        Some(first) => first <= method && method_at(kind, method - first).is_some(),
        None => false,
    }
}

// Whether the calls of both methods are of the kind.
pub(crate) fn are_methods_of(kind: Kind, first: u32, second: u32) -> bool
    ensures { result ≡ is_method (kind_number kind) first && is_method (kind_number kind) second }
{
    is_method_of(kind, first) && is_method_of(kind, second)
}
