ghost use Rattle.std.specs.Prelude.{◌≡◌, ◌++◌, map, OnOk, IfOk};
ghost use Rattle.std.specs.List.{flat_map};
ghost use Rattle.gx_base.specs.Replays.{in_rooms};
ghost use Rattle.flow_graph.specs.FlowState.{state_of};
ghost use Rattle.preflow_push.specs.FlowReports.{commit_line, node_line, value_line, flow_line, arc_line, arc_lines, flow_report};
ghost use Rattle.flow_files.specs.Networks.{view};
ghost use Rattle.commit_book.specs.Commits.{items_of};

use crate::rooms::{excess_in, flow_in};
use commit_book::Commit;
use flow_files::{Arc, Network};
use flow_graph::FlowShard;
use gx_base::NoMemory;
use line_writer::{Field, put_line};
use std::alloc::{AllocError, Global};

/// The commits in their order, the value of the flow, and the flow of each arc: a line for each.
pub fn report(
    alloc: Global,
    net: &Network,
    order: &[Commit],
    shards: &[FlowShard],
) -> Result<Vec<u8>, NoMemory>
    ensures { IfOk result (λ text. text.items ≡ flow_report (view net.now) (items_of order.now) (in_rooms (map state_of shards.now))) }
{
    let mut text = Vec::new(alloc);
    put_commits(&mut text, order)?;
    put_value(&mut text, excess_in(shards, net.sink))?;
    put_arcs(&mut text, &net.arcs, shards)?;
    Ok(text)
}

fn put_commits(text: &mut Vec<u8>, order: &[Commit]) -> Result<(), AllocError>
    ensures { OnOk result (text.new.items ≡ text.old.items ++ flat_map commit_line (items_of order.now)) }
{
    for commit in order {
        put_commit(text, commit.item.k0)?;
    }
    Ok(())
}

fn put_arcs(text: &mut Vec<u8>, arcs: &[Arc], shards: &[FlowShard]) -> Result<(), AllocError>
    ensures { OnOk result (text.new.items ≡ text.old.items ++ arc_lines (in_rooms (map state_of shards.now)) 1 arcs.now) }
{
    for (at, arc) in arcs.iter().enumerate() {
        put_arc(text, at as i64 + 1, arc, shards)?;
    }
    Ok(())
}

fn put_arc(
    text: &mut Vec<u8>,
    number: i64,
    arc: &Arc,
    shards: &[FlowShard],
) -> Result<(), AllocError>
    ensures { OnOk result (text.new.items ≡ text.old.items ++ arc_line (in_rooms (map state_of shards.now)) number arc.now) }
{
    put_flow(text, arc.from, arc.to, flow_in(shards, number))
}

fn put_commit(text: &mut Vec<u8>, node: i64) -> Result<(), AllocError>
    ensures { OnOk result (text.new.items ≡ text.old.items ++ node_line node) }
{
    put_line(
        text,
        &[Field::Word("c"), Field::Word("i"), Field::Number(node)],
    )
}

fn put_value(text: &mut Vec<u8>, value: i64) -> Result<(), AllocError>
    ensures { OnOk result (text.new.items ≡ text.old.items ++ value_line value) }
{
    put_line(text, &[Field::Word("s"), Field::Number(value)])
}

fn put_flow(text: &mut Vec<u8>, from: i64, to: i64, flow: i64) -> Result<(), AllocError>
    ensures { OnOk result (text.new.items ≡ text.old.items ++ flow_line from to flow) }
{
    put_line(
        text,
        &[
            Field::Word("f"),
            Field::Number(from),
            Field::Number(to),
            Field::Number(flow),
        ],
    )
}
