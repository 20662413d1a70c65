//! The reference runner on a small operator, over a flow shard.

ghost use Rattle.std.specs.Prelude.{◌≡◌, ℤ, pos, false, Option, Some, None, if◌then◌else◌};
ghost use Rattle.std.specs.Ordering.{int_eq};
ghost use Rattle.gx_base.specs.declared.acts.Act.TheVariants as acts;
ghost use Rattle.gx_base.specs.Plans as plans;
ghost use Rattle.system_tests.specs.declared.serial_cases.Stage.TheVariants as stages;

use commit_book::{Act, Commit, Operator, Worklist, run_serially};
use flow_graph::{EXCESS, FlowShard, GAIN};
use gx_base::{Call, Item, Reply};
use std::test::Fail;

/// Where the body of a `Bump` stands.
#[derive(Clone, Copy, Debug, PartialEq, Eq, Drop)]
enum Stage {
    Ask(i64),
    Add(i64),
    PushLowest(i64),
    PushAgain(i64),
    End,
}

/// Asks for the excess of the item's node. Where that is 0 it adds 1, and pushes the item of node 0 and then its own.
struct Bump;

const fn on_node(method: u32, node: i64, amount: i64) -> Act
    ensures { result ≡ acts.Call 0 (record { method = method; a = node; b = amount; c = pos 0; d = pos 0 }) }
{
    Act::Call {
        room: 0,
        call: Call::new(method, node, amount, 0, 0),
    }
}

const fn item_of(node: i64) -> Item
    ensures { result ≡ record { k0 = node; k1 = pos 0; k2 = pos 0; k3 = pos 0 } }
{
    Item::new(node, 0, 0, 0)
}

impl Operator for Bump {
    type St = Stage;

    ghost is_ordered = { λ op. false };

    ghost room_count = { λ op. 1 };

    ghost plan = { λ op item.
        plans.Call 0 (record { method = 18; a = item.k0; b = pos 0; c = pos 0; d = pos 0 }) (λ reply.
        if int_eq reply.p (pos 0)
        then plans.Call 0 (record { method = 19; a = item.k0; b = pos 1; c = pos 0; d = pos 0 }) (λ gained.
        plans.Push (record { k0 = pos 0; k1 = pos 0; k2 = pos 0; k3 = pos 0 }) (plans.Push (record { k0 = item.k0; k1 = pos 0; k2 = pos 0; k3 = pos 0 }) plans.Done))
        else plans.Done) };

    ghost rest = { λ op st last. elim st [
      | stages.Ask node ↦ plans.Call 0 (record { method = 18; a = node; b = pos 0; c = pos 0; d = pos 0 }) (λ reply.
          if int_eq reply.p (pos 0)
          then plans.Call 0 (record { method = 19; a = node; b = pos 1; c = pos 0; d = pos 0 }) (λ gained.
          plans.Push (record { k0 = pos 0; k1 = pos 0; k2 = pos 0; k3 = pos 0 }) (plans.Push (record { k0 = node; k1 = pos 0; k2 = pos 0; k3 = pos 0 }) plans.Done))
          else plans.Done)
      | stages.Add node ↦ elim last [
        | None ↦ plans.Done
        | Some reply ↦
            if int_eq reply.p (pos 0)
            then plans.Call 0 (record { method = 19; a = node; b = pos 1; c = pos 0; d = pos 0 }) (λ gained.
            plans.Push (record { k0 = pos 0; k1 = pos 0; k2 = pos 0; k3 = pos 0 }) (plans.Push (record { k0 = node; k1 = pos 0; k2 = pos 0; k3 = pos 0 }) plans.Done))
            else plans.Done
      ]
      | stages.PushLowest node ↦ plans.Push (record { k0 = pos 0; k1 = pos 0; k2 = pos 0; k3 = pos 0 }) (plans.Push (record { k0 = node; k1 = pos 0; k2 = pos 0; k3 = pos 0 }) plans.Done)
      | stages.PushAgain node ↦ plans.Push (record { k0 = node; k1 = pos 0; k2 = pos 0; k3 = pos 0 }) plans.Done
      | stages.End ↦ plans.Done
    ] };

    ghost to_go = { λ op st. elim st [ stages.Ask node ↦ 4 | stages.Add node ↦ 3 | stages.PushLowest node ↦ 2 | stages.PushAgain node ↦ 1 | stages.End ↦ 0 ] };

    fn rooms(&self) -> u32 {
        1
    }

    fn ordered(&self) -> bool {
        false
    }

    fn begin(&self, item: Item) -> Stage {
        Stage::Ask(item.k0)
    }

    fn next(&self, st: &mut Stage, last: Option<Reply>) -> Act {
        match (*st, last) {
            (Stage::Ask(node), _) => {
                *st = Stage::Add(node);
                on_node(EXCESS, node, 0)
            }
            (Stage::Add(node), Some(Reply { p: 0, .. })) => {
                *st = Stage::PushLowest(node);
                on_node(GAIN, node, 1)
            }
            (Stage::PushLowest(node), _) => {
                *st = Stage::PushAgain(node);
                Act::Push(item_of(0))
            }
            (Stage::PushAgain(node), _) => {
                *st = Stage::End;
                Act::Push(item_of(node))
            }
            _ => Act::Done,
        }
    }

    fn left(&self, st: &Stage) -> u64 {
        match *st {
            Stage::Ask(_) => 4,
            Stage::Add(_) => 3,
            Stage::PushLowest(_) => 2,
            Stage::PushAgain(_) => 1,
            Stage::End => 0,
        }
    }
}

fn committed(iter: u64, node: i64, steps: u64) -> Commit {
    Commit {
        worker: 0,
        iter,
        item: item_of(node),
        steps,
    }
}

#[test]
fn least_item_first(rt: HostRuntime) -> Result<(), Fail> {
    let alloc = rt.alloc();
    let mut rooms = [FlowShard::new(alloc)];
    let order = run_serially(alloc, &Bump, &mut rooms, &[item_of(2), item_of(1)])?;
    let expected = [
        committed(0, 1, 2),
        committed(1, 0, 2),
        committed(2, 0, 1),
        committed(3, 1, 1),
        committed(4, 2, 2),
        committed(5, 0, 1),
        committed(6, 2, 1),
    ];
    assert!(rt; order.as_slice() == expected.as_slice());
    assert_eq!(rt; rooms[0].excess(0), 1);
    assert_eq!(rt; rooms[0].excess(2), 1);
    Ok(())
}

#[test]
fn worklist_is_a_set(rt: HostRuntime) -> Result<(), Fail> {
    let mut ready = Worklist::new(rt.alloc());
    ready.insert(item_of(3))?;
    ready.insert(item_of(-3))?;
    ready.insert(item_of(3))?;
    for number in [-3, 3] {
        assert!(rt; ready.least() == Some(item_of(number)));
        ready.remove(item_of(number));
    }
    assert!(rt; ready.is_empty());
    Ok(())
}
