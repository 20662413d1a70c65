//! Gates under the simple tables, each over an empty object, with each screen.

use crate::lock_cases::locked_set;
use abstract_locks::{CompileRefuse, LockScreen};
use forward_gate::ForwardScreen;
use gate_core::laws::shipped_tables_serve_gates;
use gate_core::{Gate, ScanScreen};
use gx_base::{Choice, Kind, NoMemory, SeqType};
use shared_sets::laws::shipped_tables_are_not_general;
use shared_sets::{Cells, SharedSet};
use std::alloc::Global;

/// Gates whose objects and tables are the same.
#[derive(Drop)]
pub(crate) struct Gates<T: SeqType> {
    pub(crate) scanned: Gate<T, ScanScreen>,
    pub(crate) logged: Gate<T, ForwardScreen>,
    pub(crate) locked: Gate<T, LockScreen>,
}

fn scanned_set(alloc: Global) -> Result<Gate<SharedSet, ScanScreen>, NoMemory> {
    let table = SharedSet::shipped(alloc, Kind::Set, Choice::Simple)?;
    shipped_tables_serve_gates::<SharedSet>();
    shipped_tables_are_not_general();
    let object = SharedSet::new(alloc);
    Ok(Gate::new(alloc, object, Kind::Set, table, ScanScreen::new()))
}

fn logged_set(alloc: Global) -> Result<Gate<SharedSet, ForwardScreen>, NoMemory> {
    let table = SharedSet::shipped(alloc, Kind::Set, Choice::Simple)?;
    shipped_tables_serve_gates::<SharedSet>();
    shipped_tables_are_not_general();
    let object = SharedSet::new(alloc);
    Ok(Gate::new(alloc, object, Kind::Set, table, ForwardScreen::new()))
}

pub(crate) fn set_gates(alloc: Global) -> Result<Gates<SharedSet>, CompileRefuse> {
    Ok(Gates {
        scanned: scanned_set(alloc)?,
        logged: logged_set(alloc)?,
        locked: locked_set(alloc, false)?,
    })
}

fn scanned_cells(alloc: Global) -> Result<Gate<Cells, ScanScreen>, NoMemory> {
    let table = Cells::shipped(alloc, Kind::Cells, Choice::Simple)?;
    shipped_tables_serve_gates::<Cells>();
    shipped_tables_are_not_general();
    let object = Cells::new(alloc);
    Ok(Gate::new(alloc, object, Kind::Cells, table, ScanScreen::new()))
}

fn logged_cells(alloc: Global) -> Result<Gate<Cells, ForwardScreen>, NoMemory> {
    let table = Cells::shipped(alloc, Kind::Cells, Choice::Simple)?;
    shipped_tables_serve_gates::<Cells>();
    shipped_tables_are_not_general();
    let object = Cells::new(alloc);
    Ok(Gate::new(alloc, object, Kind::Cells, table, ForwardScreen::new()))
}

fn locked_cells(alloc: Global) -> Result<Gate<Cells, LockScreen>, CompileRefuse> {
    let table = Cells::shipped(alloc, Kind::Cells, Choice::Simple)?;
    let locks = LockScreen::new(alloc, Kind::Cells, &table)?;
    shipped_tables_serve_gates::<Cells>();
    let object = Cells::new(alloc);
    Ok(Gate::new(alloc, object, Kind::Cells, table, locks))
}

pub(crate) fn cells_gates(alloc: Global) -> Result<Gates<Cells>, CompileRefuse> {
    Ok(Gates {
        scanned: scanned_cells(alloc)?,
        logged: logged_cells(alloc)?,
        locked: locked_cells(alloc)?,
    })
}
