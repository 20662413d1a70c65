ghost use Rattle.std.specs.Prelude.{◌≡◌, [], length, map, IfOk, OnOk};
ghost use Rattle.gx_base.specs.Replays.{in_rooms};
ghost use Rattle.gx_base.specs.SerialIterations.{body, ready_after};
ghost use Rattle.gx_base.specs.Worklists.{with_items, without_item};
ghost use Rattle.commit_book.specs.Commits.{outcome_of};
ghost use Rattle.commit_book.specs.SerialRuns.{operator_of, IsWholeSerialRun, IsUnfinished, IsDetermined};
ghost use Rattle.commit_book.specs.declared.serial.SerialStop.TheVariants as stops;
ghost use Rattle.std.specs.declared.result.Result.TheVariants.{Err};

use crate::limits::MOST_COMMITS;
use crate::{BodyLog, Operator, Worklist};
use gx_base::{Act, Commit, Item, NoMemory, Reply, SeqType, Step};
use std::alloc::{AllocFailed, Global};

/// Why a serial run didn't end. The objects stand as its commits left them, or within a body after want of memory.
#[derive(Clone, Copy, Debug, PartialEq, Eq, Drop)]
pub enum SerialStop {
    /// So many items have committed as may, and one is ready.
    Spent,
    NoMemory,
}

impl From<NoMemory> for SerialStop {
    ghost from_gives = { λ refused stop. stop ≡ stops.NoMemory };

    fn from(_refused: NoMemory) -> SerialStop {
        SerialStop::NoMemory
    }
}

impl<T: Drop> From<AllocFailed<T>> for SerialStop {
    ghost from_gives = { λ refused stop. stop ≡ stops.NoMemory };

    fn from(_refused: AllocFailed<T>) -> SerialStop {
        SerialStop::NoMemory
    }
}

/// Runs the body of an item to its end. `outcome` is made what it did.
fn run_body<O: Operator, T: SeqType>(
    op: &O,
    item: Item,
    rooms: &mut [T],
    outcome: &mut BodyLog,
) -> Result<(), NoMemory>
    requires { O.room_count op.now ≡ length rooms.old }
    ensures { OnOk result (body (O.plan op.now item) (in_rooms (map T.state rooms.old)) ≡ record { outcome = outcome_of outcome.new; states = in_rooms (map T.state rooms.new) }) }
{
    outcome.clear();
    let mut state = op.begin(item);
    let mut last: Option<Reply> = None;
    loop {
        match op.next(&mut state, last) {
            Act::Call { room, call } => {
                let reply = rooms[room as usize].apply(call)?;
                outcome.steps.push(Step { room, call, reply })?;
                last = Some(reply);
            }
            Act::Push(item) => {
                outcome.pushes.push(item)?;
                last = None;
            }
            Act::Done => return Ok(()),
        }
    }
}

/// Commits one item, ready or not: runs its body on plain objects, takes it out of the worklist, and makes its pushes
/// ready. `outcome` is made what the body did. Where memory runs out, the objects stand within the body, or only some of
/// the pushes may be ready.
pub fn commit_item<O: Operator, T: SeqType>(
    op: &O,
    item: Item,
    rooms: &mut [T],
    worklist: &mut Worklist,
    outcome: &mut BodyLog,
) -> Result<(), NoMemory>
    requires { O.room_count op.now ≡ length rooms.old }
    ensures ran { OnOk result (body (O.plan op.now item) (in_rooms (map T.state rooms.old)) ≡ record { outcome = outcome_of outcome.new; states = in_rooms (map T.state rooms.new) }) }
    ensures ready { OnOk result (worklist.new ≡ ready_after worklist.old item (outcome_of outcome.new)) }
{
    run_body(op, item, rooms, outcome)?;
    replace_by_pushes(worklist, item, &outcome.pushes)?;
    Ok(())
}

// An item that has run is ready no more, and then its pushes are.
fn replace_by_pushes(worklist: &mut Worklist, item: Item, pushes: &[Item]) -> Result<(), NoMemory>
    ensures { OnOk result (worklist.new ≡ with_items (without_item worklist.old item) pushes.now) }
{
    worklist.remove(item);
    worklist.insert_all(pushes)
}

/// Runs the bodies of the ready items one after another on plain objects, the least ready item first, until none is ready.
pub fn run_serially<O: Operator, T: SeqType>(
    alloc: Global,
    op: &O,
    rooms: &mut [T],
    ready: &[Item],
) -> Result<Vec<Commit>, SerialStop>
    requires { O.room_count op.now ≡ length rooms.old }
    ensures whole { IfOk result (λ commits. IsWholeSerialRun (operator_of O.Operator op.now) (in_rooms (map T.state rooms.old)) (with_items [] ready.now) commits.items (in_rooms (map T.state rooms.new))) }
    ensures spent { result ≡ Err stops.Spent → IsUnfinished (operator_of O.Operator op.now) (in_rooms (map T.state rooms.old)) (with_items [] ready.now) (in_rooms (map T.state rooms.new)) }
{
    let mut worklist = Worklist::new(alloc);
    worklist.insert_all(ready)?;
    let mut commits = Vec::new(alloc);
    let mut outcome = BodyLog::new(alloc);
    while let Some(item) = worklist.least() {
        if commits.len() == MOST_COMMITS {
            return Err(SerialStop::Spent);
        }
        commit_item(op, item, rooms, &mut worklist, &mut outcome)?;
        commits.push(Commit {
            worker: 0,
            iter: commits.len() as u64,
            item,
            steps: outcome.steps.len() as u64,
        })?;
    }
    Ok(commits)
}

/// A law: the runs of an operator that take the least ready item at each turn differ only in how far they go.
pub fn order_is_determined<O: Operator>(op: &O)
    ensures { IsDetermined (operator_of O.Operator op.now) }
{}
