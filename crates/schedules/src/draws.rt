//! What a seed draws.

ghost use Rattle.std.specs.Prelude.{◌≡◌, ◌≤◌, ◌<◌, ◌+◌, ◌/◌, ◌%◌, ◌^◌, IfOk, ◌==◌, if◌then◌else◌};
ghost use Rattle.std.specs.List.{All};
ghost use Rattle.schedules.specs.Draws.{draw, sched, scheduled_turns};

use crate::affine::{next_draw_state, state_after};
use gx_base::NoMemory;
use std::alloc::Global;

/// Number k of those that a seed draws, from 0. It is below 2^31.
#[tactic(auto, using(crate::proofs::states::Turns::drawn_next))]
pub fn draw(seed: u64, k: u64) -> u64
    ensures { result ≡ draw seed k }
{
    drawn(next_draw_state(state_after(seed, k)))
}

/// The worker of turn k.
#[tactic(auto, using(crate::proofs::states::Turns::sched_zero, crate::proofs::states::Turns::sched_drawn))]
pub fn sched(seed: u64, k: u64, workers: u32) -> u32
    requires { 1 ≤ workers }
    ensures { result ≡ sched seed k workers }
{
    if seed == 0 {
        one_of(k, workers)
    } else {
        one_of(draw(seed, k), workers)
    }
}

/// The workers of so many turns.
pub fn schedule(alloc: Global, seed: u64, workers: u32, turns: u64) -> Result<Vec<u32>, NoMemory>
    requires { 1 ≤ workers }
    ensures turns { IfOk result (λ all. all.items ≡ scheduled_turns seed workers turns) }
    ensures within { IfOk result (λ all. All (λ worker. worker < workers) all.items) }
{
    let mut all = Vec::new(alloc);
    let mut state = seed;
    for turn in 0..turns {
        state = next_draw_state(state);
        all.push(worker_of(seed, turn, state, workers))?;
    }
    Ok(all)
}

/// The upper bits of a state.
fn drawn(state: u64) -> u64
    ensures { result ≡ state / 2 ^ 33 }
{
    state / 8_589_934_592
}

/// The worker of a turn, where the seed has come to this state.
fn worker_of(seed: u64, turn: u64, state: u64, workers: u32) -> u32
    requires { 1 ≤ workers }
    ensures turn { result ≡ (if seed == 0 then turn % workers else state / 2 ^ 33 % workers) }
    ensures within { result < workers }
{
    if seed == 0 {
        one_of(turn, workers)
    } else {
        one_of(drawn(state), workers)
    }
}

fn one_of(number: u64, workers: u32) -> u32
    requires { 1 ≤ workers }
    ensures rest { result ≡ number % workers }
    ensures within { result < workers }
{
    (number % u64::from(workers)) as u32
}
