//! Runs of `flow` by virtual workers: worked by hand, and beside the reference runner.

ghost use Rattle.std.specs.Prelude.{◌≤◌, ◌+◌};

use crate::run_cases::{NETWORKS, NONE, ends_so, run_words};
use commit_book::{BodyLog, Commit, Worklist, commit_item};
use galois_run::Status;
use gx_base::Item;
use preflow_push::{Discharge, Network, read_max, report, start};
use schedules::draw;
use std::alloc::Global;
use std::test::Fail;
use text_lines::{first_line, number};

const DIAMOND: &str = "p max 4 4
n 1 s
n 4 t
a 1 2 1
a 1 3 1
a 2 4 1
a 3 4 1
";

const TWO_WORKERS: &str = "c i 2
c i 3
c i 2
c i 3
s 2
f 1 2 1
f 1 3 1
f 2 4 1
f 3 4 1
t 0 0 take 2 0 0 0
t 1 1 take 3 0 0 0
t 2 0 call 2 excess 2 0 0 0 -> 1 0 0 0
t 3 1 call 3 excess 3 0 0 0 -> 1 0 0 0
t 4 0 call 2 height 2 0 0 0 -> 0 0 0 0
t 5 1 call 3 height 3 0 0 0 -> 0 0 0 0
t 6 0 call 1 flow 1 0 0 0 -> 1 0 0 0
t 7 1 call 2 flow 2 0 0 0 -> 1 0 0 0
t 8 0 call 1 height 1 0 0 0 -> 4 0 0 0
t 9 1 call 1 height 1 0 0 0 -> 4 0 0 0
t 10 0 call 3 flow 3 0 0 0 -> 0 0 0 0
t 11 1 call 4 flow 4 0 0 0 -> 0 0 0 0
t 12 0 call 4 height 4 0 0 0 -> 0 0 0 0
t 13 1 call 4 height 4 0 0 0 -> 0 0 0 0
t 14 0 call 2 relabel 2 1 0 0 -> 0 0 0 0
t 15 1 call 3 relabel 3 1 0 0 -> 0 0 0 0
t 16 0 commit 0
t 17 1 commit 1
t 18 0 take 2 0 0 0
t 19 1 take 3 0 0 0
t 20 0 call 2 excess 2 0 0 0 -> 1 0 0 0
t 21 1 call 3 excess 3 0 0 0 -> 1 0 0 0
t 22 0 call 2 height 2 0 0 0 -> 1 0 0 0
t 23 1 call 3 height 3 0 0 0 -> 1 0 0 0
t 24 0 call 1 flow 1 0 0 0 -> 1 0 0 0
t 25 1 call 2 flow 2 0 0 0 -> 1 0 0 0
t 26 0 call 1 height 1 0 0 0 -> 4 0 0 0
t 27 1 call 1 height 1 0 0 0 -> 4 0 0 0
t 28 0 call 3 flow 3 0 0 0 -> 0 0 0 0
t 29 1 call 4 flow 4 0 0 0 -> 0 0 0 0
t 30 0 call 4 height 4 0 0 0 -> 0 0 0 0
t 31 1 call 4 height 4 0 0 0 -> 0 0 0 0
t 32 0 call 3 send 3 1 0 0 -> 0 0 0 0
t 33 1 call 4 send 4 1 0 0 -> 0 0 0 0
t 34 0 call 2 gain 2 -1 0 0 -> 0 0 0 0
t 35 1 call 3 gain 3 -1 0 0 -> 0 0 0 0
t 36 0 call 4 gain 4 1 0 0 -> 0 0 0 0
t 37 1 call 4 gain 4 1 0 0 -> 0 0 0 0
t 38 0 commit 2
t 39 1 commit 3
";

const DRAIN: &str = "c i 2
c i 2
c i 3
c i 3
s 2
f 1 2 1
f 1 3 1
f 2 4 1
f 3 4 1
t 0 0 take 2 0 0 0
t 1 1 take 3 0 0 0
t 2 0 call 2 excess 2 0 0 0 -> 1 0 0 0
t 3 1 call 3 excess 3 0 0 0 -> 1 0 0 0
t 4 0 call 2 height 2 0 0 0 -> 0 0 0 0
t 5 1 call 3 height 3 0 0 0 -> 0 0 0 0
t 6 0 undo 2 height 2 0 0 0
t 7 0 undo 2 excess 2 0 0 0
t 8 1 undo 3 height 3 0 0 0
t 9 1 undo 3 excess 3 0 0 0
";

/// Whether these words on the diamond end well and write this.
fn writes(alloc: Global, words: &[&str], wanted: &str) -> Result<bool, Fail> {
    ends_so(alloc, words, DIAMOND, NONE, Status::Ok, wanted)
}

#[test]
fn diamond_two_workers(rt: HostRuntime) -> Result<(), Fail> {
    let words = [
        "flow",
        "net",
        "--virtual",
        "2",
        "--turns",
        "100",
        "--trace",
        "on",
    ];
    assert!(rt; writes(rt.alloc(), &words, TWO_WORKERS)?);
    Ok(())
}

#[test]
fn diamond_drain(rt: HostRuntime) -> Result<(), Fail> {
    let words = [
        "flow",
        "net",
        "--trace",
        "on",
        "--turns",
        "06",
        "--virtual",
        "2",
    ];
    assert!(rt; writes(rt.alloc(), &words, DRAIN)?);
    Ok(())
}

/// Words that are refused.
const REFUSED: [&[&str]; 13] = [
    &["flow", "net", "--seed"],
    &["flow", "net", "--seed", "1", "--seed", "2"],
    &["flow", "net", "--workers", "2", "--trace", "on"],
    &["flow", "net", "--virtual", "0"],
    &["flow", "net", "--virtual", "65"],
    &["flow", "net", "--turns", "1000001"],
    &["flow", "net", "--seed", "1234567890123456789"],
    &["flow", "net", "--seed", ""],
    &["flow", "net", "--trace", "off"],
    &["flow", "net", "--told", "yes"],
    &["flow", "net", "--seed", "1", "more"],
    &["classify", "net", "--seed", "1"],
    &["--help", "--seed", "1"],
];

#[test]
fn words_that_are_no_options(rt: HostRuntime) -> Result<(), Fail> {
    for words in REFUSED {
        assert!(rt; ends_so(rt.alloc(), words, DIAMOND, NONE, Status::Usage, "")?);
    }
    Ok(())
}

#[test]
fn all_options_at_their_ends(rt: HostRuntime) -> Result<(), Fail> {
    let words = [
        "flow",
        "net",
        "--told",
        "on",
        "--seed",
        "999999999999999999",
        "--virtual",
        "64",
        "--turns",
        "1000000",
    ];
    let run = run_words(rt.alloc(), &words, DIAMOND, NONE)?;
    assert!(rt; run.status == Status::Ok);
    Ok(())
}

/// A network with so many arcs out of each node but the last, which is the sink, drawn from a seed.
fn drawn_network(alloc: Global, seed: u64, nodes: u64, degree: u64) -> Result<String, Fail>
    requires least { 2 ≤ nodes }
    requires most { nodes ≤ 64 }
    requires degree { degree ≤ 64 }
{
    let arcs = degree.saturating_mul(nodes - 1);
    let mut text = format!(in alloc; "p max {nodes} {arcs}\nn 1 s\nn {nodes} t\n")?;
    for node in 1..nodes {
        for turn in 0..degree {
            let k = 128 * node + 2 * turn;
            let drawn = 1 + draw(seed, k) % nodes;
            let other = if drawn == node { node + 1 } else { drawn };
            let cap = draw(seed, k + 1) % 7;
            let line = format!(in alloc; "a {node} {other} {cap}\n")?;
            text.push_str(line.as_str())?;
        }
    }
    Ok(text)
}

/// What stands in front of a report: the commits, of which only the items are told, and then the value.
#[derive(Drop)]
struct Front {
    order: Vec<Commit>,
    value: i64,
}

fn front_of(alloc: Global, written: &[u8]) -> Result<Front, Fail> {
    let mut order = Vec::new(alloc);
    let mut rest = written;
    while !rest.is_empty() {
        let (line, more) = first_line(rest);
        rest = more;
        match line.strip_prefix(b"c i ".as_slice()) {
            Some(digits) => order.push(commit_of(printed_number(digits)?))?,
            None => return Ok(Front {
                order,
                value: printed_value(line)?,
            }),
        }
    }
    Err("no value".into())
}

fn printed_number(digits: &[u8]) -> Result<i64, Fail> {
    match number(digits) {
        Some(value) => Ok(value as i64),
        None => Err("no number".into()),
    }
}

fn printed_value(line: &[u8]) -> Result<i64, Fail> {
    match line.strip_prefix(b"s ".as_slice()) {
        Some(digits) => printed_number(digits),
        None => Err("no value".into()),
    }
}

fn commit_of(node: i64) -> Commit {
    Commit {
        worker: 0,
        iter: 0,
        item: Item::new(node, 0, 0, 0),
        steps: 0,
    }
}

/// Whether bodies run one at a time on plain shards in this order, each on a ready node and until none is ready, leave
/// this report.
fn gives(alloc: Global, net: &Network, order: &[Commit], wanted: &[u8]) -> Result<bool, Fail> {
    let (mut shards, ready) = start(alloc, net)?;
    let operator = Discharge::new(alloc, net)?;
    let mut worklist = Worklist::new(alloc);
    worklist.insert_all(&ready)?;
    let mut outcome = BodyLog::new(alloc);
    for commit in order {
        if !worklist.has(commit.item) {
            return Ok(false);
        }
        commit_item(
            &operator,
            commit.item,
            &mut shards,
            &mut worklist,
            &mut outcome,
        )?;
    }
    let text = report(alloc, net, order, &shards)?;
    Ok(worklist.is_empty() && text.as_slice() == wanted)
}

/// The value that a run of this network by a schedule prints, where the order that it prints gives, to the reference
/// runner, what the run printed.
fn serial_value(alloc: Global, text: &str, words: &[&str]) -> Result<Option<i64>, Fail> {
    let run = run_words(alloc, words, text, NONE)?;
    let Ok(net) = read_max(alloc, text.as_bytes()) else {
        return Err("no network".into());
    };
    let front = front_of(alloc, &run.written)?;
    if run.status == Status::Ok && gives(alloc, &net, &front.order, &run.written)? {
        Ok(Some(front.value))
    } else {
        Ok(None)
    }
}

/// The same, of a run by so many workers and turns.
fn scheduled_value(
    alloc: Global,
    text: &str,
    seed: u64,
    workers: u64,
    turns: u64,
) -> Result<Option<i64>, Fail> {
    let workers = format!(in alloc; "{workers}")?;
    let turns = format!(in alloc; "{turns}")?;
    let seed = format!(in alloc; "{seed}")?;
    let words = [
        "flow",
        "net",
        "--virtual",
        workers.as_str(),
        "--turns",
        turns.as_str(),
        "--seed",
        seed.as_str(),
    ];
    serial_value(alloc, text, &words)
}

#[test]
fn printed_orders_are_serial(rt: HostRuntime) -> Result<(), Fail> {
    for seed in 0..315u64 {
        let text = drawn_network(rt.alloc(), seed, 3 + seed % 9, 2 + seed % 5)?;
        let alone = scheduled_value(rt.alloc(), text.as_str(), seed, 1, 0)?;
        let value = scheduled_value(rt.alloc(), text.as_str(), seed, 2 + seed % 7, 9 * seed)?;
        assert!(rt; value.is_some() && value == alone);
    }
    Ok(())
}

#[test]
fn orders_of_worked_networks_are_serial(rt: HostRuntime) -> Result<(), Fail> {
    for seed in 0..70u64 {
        for (text, _, wanted) in NETWORKS {
            let value = scheduled_value(rt.alloc(), text, seed, 2 + seed % 7, 2 * seed)?;
            assert!(rt; value == Some(wanted), "{text}");
        }
    }
    Ok(())
}
