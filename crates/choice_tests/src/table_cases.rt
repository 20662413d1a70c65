//! Worked cases of the table of a run.

use flow_graph::FlowShard;
use gate_core::Gate;
use gx_base::{Call, Choice, Item, Kind, NoMemory, Reply, SeqType};
use kind_tables::laws::only_precise_domains_are_general;
use std::alloc::Global;
use std::test::Fail;
use table_choice::{
    AnyScreen, TableRefuse, accepted_table, choice_named, screen_for, table_of_run,
};

const EXCESS: u32 = 18;

const GAIN: u32 = 19;

const ITEM: Item = Item {
    k0: 0,
    k1: 0,
    k2: 0,
    k3: 0,
};

/// Looser than the shipped table.
const LOOSE: &str = "type flow
excess gain : true
";

/// Below the shipped table, which lets a gain of nothing through as well.
const APART: &str = "type flow
excess gain : a1 != a2
gain gain : true
";

#[test]
fn words_of_tables(rt: HostRuntime) -> Result<(), Fail> {
    assert!(rt; choice_named("precise") == Some(Choice::Precise));
    assert!(rt; choice_named("simple") == Some(Choice::Simple));
    assert!(rt; choice_named("rw") == Some(Choice::Rw));
    assert!(rt; choice_named("global") == Some(Choice::Global));
    assert!(rt; choice_named("Global").is_none());
    assert!(rt; choice_named("").is_none());
    Ok(())
}

/// Why a text is no table of a run of `flow`.
fn refusal(alloc: Global, text: &str) -> Option<TableRefuse> {
    let bytes = Some(text.as_bytes());
    match table_of_run::<FlowShard>(alloc, Kind::Flow, Choice::Precise, bytes) {
        Ok(_) => None,
        Err(refused) => Some(refused),
    }
}

fn is_not_below_at(answer: Option<TableRefuse>, first: u32, second: u32) -> bool {
    answer == Some(TableRefuse::NotBelow { first, second })
}

fn is_faulty_at(answer: Option<TableRefuse>, line: u64) -> bool {
    answer == Some(TableRefuse::Line { line })
}

#[test]
fn below_and_conditions(rt: HostRuntime) -> Result<(), Fail> {
    let alloc = rt.alloc();
    assert!(rt; is_not_below_at(refusal(alloc, LOOSE), EXCESS, GAIN));
    assert!(rt; refusal(alloc, APART).is_none());
    assert!(rt; refusal(alloc, "type flow\n").is_none());
    // Of two rows that aren't below, the one of the lesser methods is told, wherever it stands.
    let two = "type flow\nsend flow : true\ngain excess : true\n";
    assert!(rt; is_not_below_at(refusal(alloc, two), GAIN, EXCESS));
    Ok(())
}

#[test]
fn faults_of_conditions(rt: HostRuntime) -> Result<(), Fail> {
    let alloc = rt.alloc();
    assert!(rt; is_faulty_at(refusal(alloc, ""), 1));
    assert!(rt; is_faulty_at(refusal(alloc, "type set\n"), 1));
    assert!(rt; is_faulty_at(refusal(alloc, "type flow\nexcess gain : a1 !\n"), 2));
    // A fault is told before any row that isn't below.
    let both = "type flow\nexcess gain : true\nexcess fly : true\n";
    assert!(rt; is_faulty_at(refusal(alloc, both), 3));
    Ok(())
}

/// Whether the table of a run without conditions is the shipped one of the choice.
fn is_shipped(alloc: Global, choice: Choice) -> Result<bool, NoMemory> {
    let shipped = FlowShard::shipped(alloc, Kind::Flow, choice)?;
    match table_of_run::<FlowShard>(alloc, Kind::Flow, choice, None) {
        Ok(table) => Ok(table.equals(&shipped)),
        Err(_) => Ok(false),
    }
}

#[test]
fn without_conditions_the_shipped_table_holds(rt: HostRuntime) -> Result<(), Fail> {
    assert!(rt; is_shipped(rt.alloc(), Choice::Precise)?);
    assert!(rt; is_shipped(rt.alloc(), Choice::Simple)?);
    assert!(rt; is_shipped(rt.alloc(), Choice::Rw)?);
    assert!(rt; is_shipped(rt.alloc(), Choice::Global)?);
    Ok(())
}

#[test]
fn a_users_table_is_compared_with_any_other(rt: HostRuntime) -> Result<(), Fail> {
    let alloc = rt.alloc();
    let rw = FlowShard::shipped(alloc, Kind::Flow, Choice::Rw)?;
    let apart = accepted_table(alloc, Kind::Flow, APART.as_bytes(), &rw);
    let told = TableRefuse::NotBelow {
        first: GAIN,
        second: GAIN,
    };
    assert!(rt; apart.is_err());
    assert!(rt; apart.err() == Some(told));
    Ok(())
}

/// A gate of a fresh shard under the table of a run.
fn gate(
    alloc: Global,
    choice: Choice,
    conditions: Option<&[u8]>,
) -> Result<Gate<FlowShard, AnyScreen>, TableRefuse> {
    only_precise_domains_are_general();
    let table = table_of_run::<FlowShard>(alloc, Kind::Flow, choice, conditions)?;
    let screen = screen_for(alloc, Kind::Flow, &table)?;
    Ok(Gate::new(alloc, FlowShard::new(alloc), Kind::Flow, table, screen))
}

/// Whether worker 1 may call once worker 0 has looked at the excess of node 4.
fn lets_in(
    alloc: Global,
    choice: Choice,
    conditions: Option<&[u8]>,
    call: Call,
) -> Result<bool, TableRefuse> {
    let mut gate = gate(alloc, choice, conditions)?;
    let held = gate.call(0, 0, ITEM, Call::new(EXCESS, 4, 0, 0, 0));
    let asked = gate.call(1, 0, ITEM, call);
    Ok(held == Ok(Reply::new(0, 0, 0, 0)) && asked == Ok(Reply::new(0, 0, 0, 0)))
}

#[test]
fn each_table_lets_in_what_it_says(rt: HostRuntime) -> Result<(), Fail> {
    let alloc = rt.alloc();
    let nothing = Call::new(GAIN, 4, 0, 0, 0);
    let elsewhere = Call::new(GAIN, 5, 1, 0, 0);
    assert!(rt; lets_in(alloc, Choice::Precise, None, nothing)?);
    assert!(rt; !lets_in(alloc, Choice::Simple, None, nothing)?);
    assert!(rt; lets_in(alloc, Choice::Simple, None, elsewhere)?);
    assert!(rt; lets_in(alloc, Choice::Rw, None, elsewhere)?);
    assert!(rt; !lets_in(alloc, Choice::Global, None, elsewhere)?);
    let own = Some(APART.as_bytes());
    assert!(rt; lets_in(alloc, Choice::Precise, own, elsewhere)?);
    assert!(rt; !lets_in(alloc, Choice::Precise, own, nothing)?);
    Ok(())
}

fn takes_locks(
    alloc: Global,
    choice: Choice,
    conditions: Option<&[u8]>,
) -> Result<bool, TableRefuse> {
    only_precise_domains_are_general();
    let table = table_of_run::<FlowShard>(alloc, Kind::Flow, choice, conditions)?;
    let screen = screen_for(alloc, Kind::Flow, &table)?;
    Ok(matches!(&screen, AnyScreen::Lock(_)))
}

#[test]
fn simple_tables_take_locks(rt: HostRuntime) -> Result<(), Fail> {
    let alloc = rt.alloc();
    assert!(rt; !takes_locks(alloc, Choice::Precise, None)?);
    assert!(rt; takes_locks(alloc, Choice::Simple, None)?);
    assert!(rt; takes_locks(alloc, Choice::Rw, None)?);
    assert!(rt; takes_locks(alloc, Choice::Global, None)?);
    assert!(rt; takes_locks(alloc, Choice::Global, Some(APART.as_bytes()))?);
    let online = "type flow\nexcess gain : a1 != a2 or b2 = 0\n";
    assert!(rt; !takes_locks(alloc, Choice::Simple, Some(online.as_bytes()))?);
    Ok(())
}
