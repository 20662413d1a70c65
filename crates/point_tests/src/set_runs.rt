//! Thousands of drawn sets, each with a few dozen calls, and some with a thousand, whose trees are made anew. Some calls are
//! taken back and done again. Each answer stands beside the list's.
ghost use Rattle.std.specs.Prelude.{◌<◌, ◌≡◌, IfOk, OnOk};
ghost use Rattle.gx_base.specs.Steps.{next_state, reply_to};

use crate::draws::Draws;
use crate::list_of_points::ListOfPoints;
use gx_base::{Call, NoMemory, Reply, SeqType};
use kd_points::KdPoints;
use kd_points::point_methods::{ADD, NEAREST, REMOVE};
use std::alloc::Global;
use std::test::Fail;

const SETS: u64 = 2000;

const LARGE_SETS: u64 = 30;

/// Trees of fewer nodes are never made anew.
const LARGE: u64 = 64;

/// How many calls a set gets, on how many numbers.
#[derive(Clone, Copy, Drop)]
enum Size {
    Few,
    Many,
}

impl Size {
    fn steps(self) -> u64 {
        match self {
            Size::Few => 80,
            Size::Many => 1000,
        }
    }

    fn numbers(self) -> u64
        ensures some { 0 < result }
        ensures few { result < 1000 }
    {
        match self {
            Size::Few => 24,
            Size::Many => 200,
        }
    }
}

/// How the points of a set lie.
#[derive(Clone, Copy, Drop)]
enum Shape {
    Anywhere,
    Clusters,
    OnePlace,
    OneLine,
    Extremes,
    Grid,
}

fn shape_of(set: u64) -> Shape {
    match set % 6 {
        0 => Shape::Anywhere,
        1 => Shape::Clusters,
        2 => Shape::OnePlace,
        3 => Shape::OneLine,
        4 => Shape::Extremes,
        _ => Shape::Grid,
    }
}

fn drawn_place(draws: &mut Draws, shape: Shape) -> (i64, i64) {
    let small = draws.below(5) as i64;
    let other = draws.below(5) as i64;
    match shape {
        Shape::Anywhere => (draws.coordinate(), draws.coordinate()),
        Shape::Clusters => (small % 2 * 1_000_000 + other, other * 1_000 + small),
        Shape::OnePlace => (7, -7),
        Shape::OneLine => (draws.coordinate(), 3),
        Shape::Extremes => (
            if small < 2 {
                i64::MIN
            } else {
                i64::MAX - small
            },
            if other < 2 {
                i64::MAX
            } else {
                i64::MIN + other
            },
        ),
        Shape::Grid => (small, other),
    }
}

/// A remove of the point of a number where it stands; of a number without a point, the call itself.
fn remove_of(list: &ListOfPoints, call: Call) -> Call {
    match list.at(call.a) {
        None => call,
        Some(point) => Call::new(REMOVE, point.id, point.x, point.y, point.z),
    }
}

fn drawn_call(draws: &mut Draws, shape: Shape, size: Size, list: &ListOfPoints) -> Call {
    let method = ADD + draws.below(4) as u32;
    let id = draws.below(size.numbers()) as i64 - 1;
    let (x, y) = drawn_place(draws, shape);
    let z = if draws.below(16) == 0 { 1 } else { 0 };
    let call = Call::new(method, id, x, y, z);
    if method == REMOVE && draws.below(2) == 0 {
        remove_of(list, call)
    } else {
        call
    }
}

/// How many calls there were of each sort, and how many answers differed from the list's.
#[derive(Clone, Copy, Drop)]
struct Counts {
    changed: u64,
    found: u64,
    undone: u64,
    tidied: u64,
    differing: u64,
}

const NONE_COUNTED: Counts = Counts {
    changed: 0,
    found: 0,
    undone: 0,
    tidied: 0,
    differing: 0,
};

fn counted(count: u64, more: bool) -> u64 {
    if more { count.saturating_add(1) } else { count }
}

fn same_points(points: &KdPoints, list: &ListOfPoints, size: Size) -> bool {
    for id in -1..size.numbers() as i64 {
        if points.at(id) != list.at(id) {
            return false;
        }
    }
    points.count() == list.count()
}

/// Takes back a call that replied 1, in the list.
fn take_back(list: &mut ListOfPoints, call: Call) -> Result<(), NoMemory> {
    let spot = gx_base::Spot {
        id: call.a,
        x: call.b,
        y: call.c,
        z: call.d,
    };
    match call.method {
        ADD => list.take_out(spot.id),
        REMOVE => list.put(spot)?,
        _ => {}
    }
    Ok(())
}

/// Does a call, takes it back and does it again.
fn done_again<T: SeqType>(object: &mut T, call: Call) -> Result<Reply, NoMemory>
    ensures reply { IfOk result (λ reply. reply ≡ reply_to (T.state object.old) call) }
    ensures state { OnOk result (T.state object.new ≡ next_state (T.state object.old) call) }
{
    let reply = object.apply(call)?;
    object.undo(call, reply);
    object.redo(call, reply);
    Ok(reply)
}

/// A call, maybe done a second time after it was taken back; and maybe it is taken back for good.
fn step(
    points: &mut KdPoints,
    list: &mut ListOfPoints,
    draws: &mut Draws,
    shape: Shape,
    size: Size,
    counts: &mut Counts,
) -> Result<(), NoMemory> {
    let call = drawn_call(draws, shape, size, list);
    let reply = if draws.below(2) == 0 {
        points.apply(call)?
    } else {
        done_again(points, call)?
    };
    let wanted = list.apply(call)?;
    let changing = call.method == ADD || call.method == REMOVE;
    counts.differing = counted(counts.differing, reply != wanted);
    counts.changed = counted(counts.changed, changing && reply.p == 1);
    counts.found = counted(counts.found, call.method == NEAREST && reply.p != -1);
    if draws.below(3) == 0 {
        return Ok(());
    }
    counts.differing = counted(counts.differing, !points.roomed(call, reply));
    if draws.below(2) == 0 && points.roomed(call, reply) {
        points.undo(call, reply);
        if changing && reply.p == 1 {
            take_back(list, call)?;
        }
        counts.undone = counted(counts.undone, true);
        counts.differing = counted(counts.differing, !same_points(points, list, size));
    }
    if draws.below(20) == 0 {
        points.tidy()?;
        counts.tidied = counted(counts.tidied, points.count() >= LARGE);
        counts.differing = counted(counts.differing, !same_points(points, list, size));
    }
    Ok(())
}

fn run_set(alloc: Global, set: u64, size: Size, counts: &mut Counts) -> Result<(), NoMemory> {
    let mut points = KdPoints::new(alloc);
    let mut list = ListOfPoints::new(alloc);
    let mut draws = Draws::new(set);
    for _ in 0..size.steps() {
        step(
            &mut points,
            &mut list,
            &mut draws,
            shape_of(set),
            size,
            counts,
        )?;
    }
    counts.differing = counted(counts.differing, !same_points(&points, &list, size));
    Ok(())
}

#[test]
fn drawn_sets_are_as_the_list(rt: HostRuntime) -> Result<(), Fail> {
    let mut counts = NONE_COUNTED;
    for set in 0..SETS {
        run_set(rt.alloc(), set, Size::Few, &mut counts)?;
    }
    assert_eq!(rt; counts.differing, 0);
    assert!(rt; counts.changed > 20000 && counts.found > 20000 && counts.undone > 20000);
    Ok(())
}

#[test]
fn trees_that_are_made_anew_are_as_the_list(rt: HostRuntime) -> Result<(), Fail> {
    let mut counts = NONE_COUNTED;
    for set in 0..LARGE_SETS {
        run_set(rt.alloc(), set, Size::Many, &mut counts)?;
    }
    assert_eq!(rt; counts.differing, 0);
    assert!(rt; counts.tidied > 100);
    Ok(())
}

/// Whether a call that is taken back can be done again and again, with the same reply and after it the same point.
fn again(points: &mut KdPoints, call: Call) -> Result<bool, NoMemory> {
    let reply = points.apply(call)?;
    if !points.roomed(call, reply) {
        return Ok(false);
    }
    let after = points.at(call.a);
    points.undo(call, reply);
    let second = done_again(points, call)?;
    Ok(second == reply && points.at(call.a) == after)
}

fn all_again(points: &mut KdPoints, calls: &[Call]) -> Result<bool, NoMemory> {
    for call in calls {
        if !again(points, *call)? {
            return Ok(false);
        }
    }
    Ok(true)
}

/// Takes a call back that replied 1. Whether it leaves this place, or none, to its number.
fn leaves(points: &mut KdPoints, call: Call, place: Option<(i64, i64)>) -> bool {
    let yes = Reply::new(1, 0, 0, 0);
    if !points.roomed(call, yes) {
        return false;
    }
    points.undo(call, yes);
    match (points.at(call.a), place) {
        (None, None) => true,
        (Some(point), Some((x, y))) => point.x == x && point.y == y,
        _ => false,
    }
}

#[test]
fn a_number_is_taken_out_and_put_in_elsewhere(rt: HostRuntime) -> Result<(), Fail> {
    let mut points = KdPoints::new(rt.alloc());
    let first = Call::new(ADD, 4, 1, 1, 0);
    let out = Call::new(REMOVE, 4, 1, 1, 0);
    let elsewhere = Call::new(ADD, 4, 2, 2, 0);
    let out_again = Call::new(REMOVE, 4, 2, 2, 0);
    assert!(rt; all_again(&mut points, &[first, out, elsewhere, out, out_again, first])?);
    assert!(rt; points.apply(Call::new(NEAREST, 9, 0, 0, 0))? == Reply::new(4, 1, 1, 0));
    assert_eq!(rt; points.count(), 1);
    assert!(rt; leaves(&mut points, first, None));
    assert!(rt; leaves(&mut points, out_again, Some((2, 2))));
    assert!(rt; leaves(&mut points, elsewhere, None));
    assert!(rt; leaves(&mut points, out, Some((1, 1))));
    assert!(rt; leaves(&mut points, first, None));
    assert_eq!(rt; points.count(), 0);
    Ok(())
}
