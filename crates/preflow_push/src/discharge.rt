ghost use Rattle.std.specs.Prelude.{◌≡◌, ◌+◌, length, ℤ, pos, Bool, true, false, None, IsTrue, IfOk, int_le, int_lt, if◌then◌else◌};
ghost use Rattle.std.specs.Ordering.{int_eq};
ghost use Rattle.std.specs.Int.{w64, int_wrapping_sub, int_wrapping_add};
ghost use Rattle.gx_base.specs.Plans as plans;
ghost use Rattle.gx_base.specs.declared.acts.Act.TheVariants as acts;
ghost use Rattle.preflow_push.specs.FlowCalls.{flow_call_of, room_of};
ghost use Rattle.preflow_push.specs.Discharge.{names_node, node_item, residual, sent_along, is_just_above, lesser, rise, is_terminal, discharge_plan};
ghost use Rattle.flow_files.specs.Networks.{view};
ghost use Rattle.preflow_push.specs.Stages.{value_of_reply};

use crate::flow_calls::{call_act, node_item};
use crate::rooms::ROOMS;
use crate::stages::{Stage, Walk};
use crate::touches::{Touch, Touches};
use commit_book::Operator;
use flow_files::Network;
use flow_graph::{EXCESS, FLOW, GAIN, HEIGHT, RELABEL, SEND};
use gx_base::{Act, Item, NoMemory, Reply};
use std::alloc::Global;

/// The work on a node: its excess is pushed along its arcs to lower nodes, and where some is left
/// the node rises. The items are the numbers of nodes, in `k0`.
#[derive(Drop)]
pub struct Discharge {
    nodes: i64,
    source: i64,
    sink: i64,
    touches: Touches,
}

fn value_of(last: Option<Reply>) -> i64
    ensures { result ≡ value_of_reply last }
{
    match last {
        Some(reply) => reply.p,
        None => 0,
    }
}

/// How much more can be sent along an arc from the end that sees it.
fn residual(arc: Touch, flow: i64) -> i64
    ensures { result ≡ residual arc flow }
{
    if arc.leaves {
        arc.cap.wrapping_sub(flow)
    } else {
        flow
    }
}

/// What is sent along an arc where an amount goes to its other end.
fn sent_along(arc: Touch, amount: i64) -> i64
    ensures { result ≡ sent_along arc amount }
{
    if arc.leaves {
        amount
    } else {
        amount.wrapping_neg()
    }
}

fn is_just_above(height: i64, other: i64) -> bool
    ensures { result ≡ is_just_above height other }
{
    height == other.wrapping_add(1)
}

fn lesser(least: Option<i64>, height: i64) -> i64
    ensures { result ≡ lesser least height }
{
    match least {
        Some(least) => least.min(height),
        None => height,
    }
}

impl Discharge {
    ghost use Rattle.preflow_push.specs.Discharges.{item_plan, ends_of, lists_of, onward_of, acts_of, acts_onward, MovesTo};
    ghost use Rattle.preflow_push.specs.Discharge as discharge;
    ghost use Rattle.preflow_push.specs.Stages.{acts_over};

    /// The work on the nodes of a network.
    pub fn new(alloc: Global, net: &Network) -> Result<Discharge, NoMemory>
        ensures { IfOk result (λ made. item_plan made ≡ discharge_plan (view net.now)) }
    {
        let touches = Touches::new(alloc, &net.arcs)?;
        Ok(Discharge {
            nodes: net.nodes,
            source: net.source,
            sink: net.sink,
            touches,
        })
    }

    fn names_node(&self, item: Item) -> bool
        ensures { result ≡ names_node self.now.nodes item }
    {
        match item {
            Item {
                k0: node,
                k1: 0,
                k2: 0,
                k3: 0,
            } => 1 <= node && node <= self.nodes,
            _ => false,
        }
    }

    fn is_terminal(&self, node: i64) -> bool
        ensures { result ≡ is_terminal (ends_of self.now) node }
    {
        node == self.source || node == self.sink
    }

    fn take_excess(&self, node: i64, list: usize, excess: i64) -> (Act, Stage)
        ensures { MovesTo self.now (discharge.with_excess (ends_of self.now) node (lists_of self.now list) excess) (acts_over (length (lists_of self.now list)) + 1) result.0 result.1 }
    {
        if excess <= 0 {
            return (Act::Done, Stage::End);
        }
        (
            call_act(HEIGHT, node, 0),
            Stage::AfterHeight { node, list, excess },
        )
    }

    /// Turns to the next arc, and after the last one lets the node rise.
    fn go_on(&self, mut walk: Walk) -> (Act, Stage)
        ensures { MovesTo self.now (onward_of self.now walk walk.excess walk.least) (acts_onward self.now walk) result.0 result.1 }
    {
        match (self.touches.arc_at(walk.list, walk.at), walk.least) {
            (Some(arc), _) => {
                walk.at += 1;
                (
                    call_act(FLOW, arc.number, 0),
                    Stage::AfterFlow { walk, arc },
                )
            }
            (None, Some(least)) => (
                call_act(RELABEL, walk.node, least.wrapping_add(1)),
                Stage::AfterRelabel { node: walk.node },
            ),
            (None, None) => (Act::Done, Stage::End),
        }
    }

    fn take_flow(&self, walk: Walk, arc: Touch, flow: i64) -> (Act, Stage)
        ensures { MovesTo self.now (discharge.after_flow (ends_of self.now) walk.node walk.height arc flow walk.excess walk.least (onward_of self.now walk)) (acts_onward self.now walk + 5) result.0 result.1 }
    {
        let residual = residual(arc, flow);
        if residual <= 0 {
            return self.go_on(walk);
        }
        (
            call_act(HEIGHT, arc.other, 0),
            Stage::AfterOther {
                walk,
                arc,
                residual,
            },
        )
    }

    fn take_height(&self, mut walk: Walk, arc: Touch, residual: i64, height: i64) -> (Act, Stage)
        ensures { MovesTo self.now (discharge.after_height (ends_of self.now) walk.node walk.height arc residual height walk.excess walk.least (onward_of self.now walk)) (acts_onward self.now walk + 4) result.0 result.1 }
    {
        if !is_just_above(walk.height, height) {
            walk.least = Some(lesser(walk.least, height));
            return self.go_on(walk);
        }
        let amount = walk.excess.min(residual);
        (
            call_act(SEND, arc.number, sent_along(arc, amount)),
            Stage::AfterSend { walk, arc, amount },
        )
    }

    fn after_gains(&self, mut walk: Walk, arc: Touch, amount: i64) -> (Act, Stage)
        ensures { MovesTo self.now (discharge.after_gains (ends_of self.now) walk.node walk.height arc amount walk.excess walk.least (onward_of self.now walk)) (acts_onward self.now walk + 1) result.0 result.1 }
    {
        walk.excess = walk.excess.wrapping_sub(amount);
        if self.is_terminal(arc.other) {
            return self.unless_spent(walk);
        }
        (Act::Push(node_item(arc.other)), Stage::AfterPush { walk })
    }

    fn unless_spent(&self, walk: Walk) -> (Act, Stage)
        ensures { MovesTo self.now (discharge.unless_spent walk.excess walk.least (onward_of self.now walk)) (acts_onward self.now walk) result.0 result.1 }
    {
        if walk.excess == 0 {
            return (Act::Done, Stage::End);
        }
        self.go_on(walk)
    }
}

impl Discharge {
    ghost use Rattle.preflow_push.specs.Discharges.{MovesTo, acts_of, ends_of, lists_of};
    ghost use Rattle.preflow_push.specs.Stages.{rest_at};

    /// The next act at a stage, and the stage after it. `value` is what the last call replied.
    fn move_on(&self, stage: Stage, value: i64) -> (Act, Stage)
        ensures { MovesTo self.now (rest_at (ends_of self.now) (lists_of self.now) stage value) (acts_of self.now stage) result.0 result.1 }
    {
        match stage {
            Stage::Begin { node, list } => (
                call_act(EXCESS, node, 0),
                Stage::AfterExcess { node, list },
            ),
            Stage::AfterExcess { node, list } => self.take_excess(node, list, value),
            Stage::AfterHeight { node, list, excess } => self.go_on(Walk {
                node,
                height: value,
                excess,
                least: None,
                list,
                at: 0,
            }),
            Stage::AfterFlow { walk, arc } => self.take_flow(walk, arc, value),
            Stage::AfterOther {
                walk,
                arc,
                residual,
            } => self.take_height(walk, arc, residual, value),
            Stage::AfterSend { walk, arc, amount } => (
                call_act(GAIN, walk.node, amount.wrapping_neg()),
                Stage::AfterLoss { walk, arc, amount },
            ),
            Stage::AfterLoss { walk, arc, amount } => (
                call_act(GAIN, arc.other, amount),
                Stage::AfterGain { walk, arc, amount },
            ),
            Stage::AfterGain { walk, arc, amount } => self.after_gains(walk, arc, amount),
            Stage::AfterPush { walk } => self.unless_spent(walk),
            Stage::AfterRelabel { node } => (Act::Push(node_item(node)), Stage::End),
            Stage::End => (Act::Done, Stage::End),
        }
    }
}

impl Operator for Discharge {
    ghost use Rattle.preflow_push.specs.Discharges.{item_plan, body_rest, acts_of};
    ghost use Rattle.preflow_push.specs.FlowCalls.{rooms};

    type St = Stage;

    ghost is_ordered = { λ d. false };

    ghost room_count = { λ d. rooms };

    ghost plan = { item_plan };

    ghost rest = { body_rest };

    ghost to_go = { acts_of };

    fn rooms(&self) -> u32 {
        ROOMS
    }

    fn ordered(&self) -> bool {
        false
    }

    fn begin(&self, item: Item) -> Stage {
        if !self.names_node(item) {
            return Stage::End;
        }
        Stage::Begin {
            node: item.k0,
            list: self.touches.list_of(item.k0),
        }
    }

    fn next(&self, st: &mut Stage, last: Option<Reply>) -> Act {
        let (act, stage) = self.move_on(*st, value_of(last));
        *st = stage;
        act
    }

    fn left(&self, st: &Stage) -> u64 {
        let (list, at, more) = match *st {
            Stage::Begin { list, .. } => (list, 0, 2),
            Stage::AfterExcess { list, .. } => (list, 0, 1),
            Stage::AfterHeight { list, .. } => (list, 0, 0),
            Stage::AfterFlow { walk, .. } => (walk.list, walk.at, 5),
            Stage::AfterOther { walk, .. } => (walk.list, walk.at, 4),
            Stage::AfterSend { walk, .. } => (walk.list, walk.at, 3),
            Stage::AfterLoss { walk, .. } => (walk.list, walk.at, 2),
            Stage::AfterGain { walk, .. } => (walk.list, walk.at, 1),
            Stage::AfterPush { walk } => (walk.list, walk.at, 0),
            Stage::AfterRelabel { .. } => return 1,
            Stage::End => return 0,
        };
        6 * self.touches.count_from(list, at) as u64 + 2 + more
    }
}
