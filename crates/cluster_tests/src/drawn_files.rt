//! Drawn files, whose bodies run in drawn orders: the order that is printed, done by a list of points that is walked,
//! gives what was printed, line by line.

ghost use Rattle.std.specs.Prelude.{◌<◌};

use crate::list_of_clusters::Clusters;
use clustering::{Chain, Cloud, read_points, report, start};
use commit_book::{BodyLog, Commit, Worklist, commit_item};
use gx_base::{Item, Spot};
use schedules::draw;
use std::alloc::Global;
use std::test::Fail;
use text_lines::{first_line, number};

/// A drawn number of at most this size.
fn drawn(seed: u64, k: u64, size: u64) -> i64
    requires { size < 2000000000 }
{
    (draw(seed, k) % (2 * size + 1)) as i64 - size as i64
}

/// Far apart, on a small grid, on a line, in one place, and as far apart as may be.
fn drawn_place(seed: u64, k: u64) -> (i64, i64)
    requires { k < 1000 }
{
    match seed % 5 {
        0 => (
            drawn(seed, 2 * k, 1_000_000),
            drawn(seed, 2 * k + 1, 1_000_000),
        ),
        1 => (drawn(seed, 2 * k, 3), drawn(seed, 2 * k + 1, 3)),
        2 => (drawn(seed, 2 * k, 50), 7),
        3 => (-4, 11),
        _ => (
            drawn(seed, 2 * k, 1).wrapping_mul(1_000_000_000),
            drawn(seed, 2 * k + 1, 1).wrapping_mul(1_000_000_000),
        ),
    }
}

fn drawn_places(alloc: Global, seed: u64, count: u64) -> Result<Vec<(i64, i64)>, Fail> {
    let mut places = Vec::new(alloc);
    for k in 0..count {
        places.push(drawn_place(seed, k % 1000))?;
    }
    Ok(places)
}

/// The file of these points.
fn file_of(alloc: Global, places: &[(i64, i64)]) -> Result<Vec<u8>, Fail> {
    let mut file = Vec::new(alloc);
    for place in places {
        let row = format!(in alloc; "{},{}\n", place.0, place.1)?;
        file.extend_from_slice(row.as_bytes())?;
    }
    Ok(file)
}

/// Takes out the item of a drawn place.
fn drawn_item(waiting: &mut Vec<Item>, number: u64) -> Option<Item> {
    if waiting.is_empty() {
        return None;
    }
    let place = number % waiting.len() as u64;
    Some(waiting.remove(place as usize))
}

/// Runs the body of an item, and makes its pushes wait.
fn commit_one(
    alloc: Global,
    chain: &Chain,
    item: Item,
    rooms: &mut Vec<Cloud>,
    waiting: &mut Vec<Item>,
) -> Result<(), Fail> {
    let mut worklist = Worklist::new(alloc);
    let mut outcome = BodyLog::new(alloc);
    if rooms.len() != 2 {
        return Err("no two rooms".into());
    }
    commit_item(chain, item, rooms, &mut worklist, &mut outcome)?;
    for push in &outcome.pushes {
        if !waiting.contains(push) {
            waiting.push(*push)?;
        }
    }
    Ok(())
}

/// The report on points whose bodies run in a drawn order.
fn drawn_report(alloc: Global, spots: &[Spot], seed: u64) -> Result<Vec<u8>, Fail> {
    if spots.len() > 1000 {
        return Err("too many points".into());
    }
    let chain = Chain::new(spots.len() as u64);
    let (mut rooms, mut waiting) = start(alloc, spots)?;
    let mut order = Vec::new(alloc);
    for turn in 0..10_000u64 {
        let Some(item) = drawn_item(&mut waiting, draw(seed, turn)) else {
            return Ok(report(alloc, spots, &order, &rooms)?);
        };
        commit_one(alloc, &chain, item, &mut rooms, &mut waiting)?;
        order.push(Commit {
            worker: 0,
            iter: turn,
            item,
            steps: 0,
        })?;
    }
    Err("no end".into())
}

/// The numbers of the commits whose lines stand in front of a report.
fn printed_order(alloc: Global, written: &[u8]) -> Result<Vec<i64>, Fail> {
    let mut order = Vec::new(alloc);
    let mut rest = written;
    while !rest.is_empty() {
        let (line, more) = first_line(rest);
        rest = more;
        let Some(digits) = line.strip_prefix(b"i ".as_slice()) else {
            return Ok(order);
        };
        let Some(id) = number(digits) else {
            return Err("no number".into());
        };
        order.push(id as i64)?;
    }
    Ok(order)
}

/// Whether the list of these points gives what was printed, by the printed order. Each number is ready at its turn, and
/// none is at the end.
fn gives(alloc: Global, places: &[(i64, i64)], written: &[u8]) -> Result<bool, Fail> {
    let order = printed_order(alloc, written)?;
    let mut clusters = Clusters::new(alloc, places)?;
    for id in &order {
        if !clusters.commit(*id)? {
            return Ok(false);
        }
    }
    let text = clusters.text(alloc, &order, places.len() as i64)?;
    Ok(clusters.is_nothing_ready() && text.as_slice() == written)
}

/// Whether a drawn file of so many points is reported as by the list.
fn is_reported(alloc: Global, seed: u64, count: u64) -> Result<bool, Fail> {
    let places = drawn_places(alloc, seed, count)?;
    let file = file_of(alloc, &places)?;
    let Ok(spots) = read_points(alloc, &file) else {
        return Ok(false);
    };
    let written = drawn_report(alloc, &spots, seed)?;
    gives(alloc, &places, &written)
}

#[test]
fn printed_orders_give_what_is_printed(rt: HostRuntime) -> Result<(), Fail> {
    for seed in 0..60u64 {
        assert!(rt; is_reported(rt.alloc(), seed, 1 + seed % 47)?);
    }
    Ok(())
}
