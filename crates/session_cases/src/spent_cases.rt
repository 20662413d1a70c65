//! A run with more commits than there may be.

use crate::networks::with_book;
use crate::scripts::Scripts;
use gate_core::ScanScreen;
use gx_base::{Act, Item, NoMemory};
use iterate::{Stop, play};
use rooms::Value;
use shared_sets::Cells;
use std::alloc::Global;
use std::test::Fail;

/// How the run of a body stops that makes no call, and pushes its own item.
fn stop_of_an_endless_run(alloc: Global) -> Result<Option<Stop>, NoMemory> {
    let item = Item::new(0, 0, 0, 0);
    let op = Scripts::new(0, vec![in alloc; Act::Push(item), Act::Done]?);
    let gates: Vec<Value<Cells, ScanScreen>> = Vec::new(alloc);
    let rooms = with_book(alloc, gates, &[item])?;
    match play(alloc, rooms, &op, 2, &[0, 1, 1, 0]) {
        Ok(_) => Ok(None),
        Err(stop) => Ok(Some(stop)),
    }
}

#[test]
fn an_item_that_pushes_itself_is_spent(rt: HostRuntime) -> Result<(), Fail> {
    let stop = stop_of_an_endless_run(rt.alloc())?;
    assert!(rt; stop == Some(Stop::Spent));
    Ok(())
}
