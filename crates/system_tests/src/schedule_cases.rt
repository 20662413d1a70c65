//! Schedules, and what seeds draw, worked by hand.

ghost use Rattle.std.specs.Prelude.{◌≤◌};

use schedules::{draw, sched, schedule};
use std::alloc::Global;
use std::test::Fail;

#[test]
fn draws(rt: HostRuntime) -> Result<(), Fail> {
    assert_eq!(rt; draw(0, 0), 167_951_807);
    assert_eq!(rt; draw(1, 0), 908_834_774);
    assert_eq!(rt; draw(1, 5), 1_074_839_795);
    assert_eq!(rt; draw(999_999_999_999_999_999, 2), 778_852_891);
    Ok(())
}

/// Whether a seed gives these turns, each by itself and all at once.
fn gives(alloc: Global, seed: u64, workers: u32, turns: &[u32]) -> Result<bool, Fail>
    requires { 1 ≤ workers }
{
    for (k, turn) in turns.iter().enumerate() {
        if sched(seed, k as u64, workers) != *turn {
            return Ok(false);
        }
    }
    let all = schedule(alloc, seed, workers, turns.len() as u64)?;
    Ok(all.as_slice() == turns)
}

#[test]
fn seed_zero_takes_turns(rt: HostRuntime) -> Result<(), Fail> {
    let alloc = rt.alloc();
    assert!(rt; gives(alloc, 0, 2, &[0, 1, 0, 1, 0])?);
    assert!(rt; gives(alloc, 0, 3, &[0, 1, 2, 0, 1, 2, 0])?);
    assert!(rt; gives(alloc, 0, 1, &[0, 0, 0])?);
    assert!(rt; gives(alloc, 0, 64, &[])?);
    Ok(())
}

#[test]
fn other_seeds_draw_turns(rt: HostRuntime) -> Result<(), Fail> {
    let alloc = rt.alloc();
    assert!(rt; gives(alloc, 1, 4, &[2, 1, 0, 2, 2, 3])?);
    assert!(rt; gives(alloc, 9_223_372_036_854_775_808, 3, &[0, 1, 0, 2])?);
    assert!(rt; gives(alloc, 7, 64, &[30, 63, 49, 17, 41])?);
    Ok(())
}

#[test]
fn a_million_turns_are_made_at_once(rt: HostRuntime) -> Result<(), Fail> {
    let all = schedule(rt.alloc(), 7, 64, 1_000_000)?;
    assert_eq!(rt; all.len(), 1_000_000);
    assert!(rt; all.last() == Some(&20));
    Ok(())
}
