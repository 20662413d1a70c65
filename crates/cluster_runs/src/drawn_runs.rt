//! Drawn points, clustered by several workers under drawn schedules and each table: the order that is printed, done by
//! bodies one at a time on plain points and cells, gives what was printed.

use crate::worked_runs::run_words;
use clustering::{Chain, Cloud, read_points, report, start};
use commit_book::{BodyLog, Commit, Worklist, commit_item};
use galois_run::Status;
use gx_base::{Item, Spot};
use schedules::draw;
use std::alloc::Global;
use std::test::Fail;
use text_lines::{first_line, number};

const TABLES: [&str; 4] = ["precise", "simple", "rw", "global"];

const OWN: [&str; 3] = [
    "type points\nat at : true\nat nearest : true\nnearest at : true\nnearest nearest : true\n",
    "type cells\nread read : true\nread set : a1 != a2\nset read : a1 != a2\nset set : a1 != a2\n",
    "type points\n",
];

/// The file of so many points, on a small grid or a larger one.
fn drawn_file(alloc: Global, seed: u64, count: u64) -> Result<Vec<u8>, Fail> {
    let size = if seed % 2 == 0 { 7 } else { 1001 };
    let mut file = Vec::new(alloc);
    for k in 0..count {
        let x = draw(seed, 2 * (k % 1000)) % size;
        let y = draw(seed, 2 * (k % 1000) + 1) % size;
        let row = format!(in alloc; "-{x},{y}\n")?;
        file.extend_from_slice(row.as_bytes())?;
    }
    Ok(file)
}

/// The commits whose lines stand in front of a report, of which only the items are told.
fn printed_order(alloc: Global, written: &[u8]) -> Result<Vec<Commit>, Fail> {
    let mut order = Vec::new(alloc);
    let mut rest = written;
    while !rest.is_empty() {
        let (line, more) = first_line(rest);
        rest = more;
        let Some(digits) = line.strip_prefix(b"i ".as_slice()) else {
            return Ok(order);
        };
        let Some(id) = number(digits) else {
            return Err("no number".into());
        };
        order.push(Commit {
            worker: 0,
            iter: 0,
            item: Item::new(id as i64, 0, 0, 0),
            steps: 0,
        })?;
    }
    Ok(order)
}

/// Runs the body of an item where it is ready, and answers whether it is.
fn commit_ready(
    chain: &Chain,
    item: Item,
    rooms: &mut Vec<Cloud>,
    worklist: &mut Worklist,
    outcome: &mut BodyLog,
) -> Result<bool, Fail> {
    if rooms.len() != 2 || !worklist.has(item) {
        return Ok(false);
    }
    commit_item(chain, item, rooms, worklist, outcome)?;
    Ok(true)
}

/// Whether bodies one at a time in this order, each of a ready point and until none is ready, leave this report.
fn gives(alloc: Global, spots: &[Spot], order: &[Commit], wanted: &[u8]) -> Result<bool, Fail> {
    if spots.len() > 1000 {
        return Ok(false);
    }
    let chain = Chain::new(spots.len() as u64);
    let (mut rooms, ready) = start(alloc, spots)?;
    let mut worklist = Worklist::new(alloc);
    worklist.insert_all(&ready)?;
    let mut outcome = BodyLog::new(alloc);
    for commit in order {
        if !commit_ready(&chain, commit.item, &mut rooms, &mut worklist, &mut outcome)? {
            return Ok(false);
        }
    }
    let text = report(alloc, spots, order, &rooms)?;
    Ok(worklist.is_empty() && text.as_slice() == wanted)
}

/// Whether the order that a run with these words prints gives what it printed.
fn is_serial(alloc: Global, words: &[&str], file: &[u8], table: &str) -> Result<bool, Fail> {
    let run = run_words(alloc, words, file, table)?;
    let Ok(spots) = read_points(alloc, file) else {
        return Ok(false);
    };
    let order = printed_order(alloc, &run.written)?;
    Ok(run.status == Status::Ok && gives(alloc, &spots, &order, &run.written)?)
}

/// Whether runs of a drawn file by a drawn schedule are serial, under this option's value.
fn are_serial(alloc: Global, seed: u64, option: [&str; 2], table: &str) -> Result<bool, Fail> {
    let file = drawn_file(alloc, seed, 1 + seed % 23)?;
    let workers = format!(in alloc; "{}", 1 + seed % 7)?;
    let turns = format!(in alloc; "{}", 17 * (seed % 40))?;
    let seed = format!(in alloc; "{seed}")?;
    let words = [
        "cluster",
        "points",
        "--virtual",
        workers.as_str(),
        "--turns",
        turns.as_str(),
        "--seed",
        seed.as_str(),
        option[0],
        option[1],
    ];
    is_serial(alloc, &words, &file, table)
}

#[test]
fn printed_orders_are_serial(rt: HostRuntime) -> Result<(), Fail> {
    for seed in 0..20u64 {
        for table in TABLES {
            assert!(rt; are_serial(rt.alloc(), seed, ["--table", table], "")?);
        }
    }
    Ok(())
}

#[test]
fn orders_under_own_conditions_are_serial(rt: HostRuntime) -> Result<(), Fail> {
    for seed in 20..35u64 {
        for table in OWN {
            assert!(rt; are_serial(rt.alloc(), seed, ["--conditions", "table"], table)?);
        }
    }
    Ok(())
}
