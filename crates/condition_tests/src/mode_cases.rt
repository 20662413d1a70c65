//! What no clause says: that calls succeed, and values worked by hand.

use gx_base::{Cond, Kind, NoMemory, Side, Table, Term};
use lock_compiler::laws::{calls_clash_where_rows_are_false, reduced_modes_clash_alike};
use lock_compiler::{CompileRefuse, Modes, compile, reduce};
use std::alloc::Global;
use std::test::Fail;

const CONTAINS: u32 = 2;

const WEIGH: u32 = 48;

const TOTAL: u32 = 49;

const CREDIT: u32 = 51;

const A1: Term = Term::Value(Side::First, 0);

const A2: Term = Term::Value(Side::Second, 0);

/// The table of sets in which calls of equal numbers exclude each other, but for two that only look.
fn apart_set(alloc: Global) -> Result<Table, NoMemory> {
    let mut table = Table::blank(alloc);
    for first in 0..3u32 {
        for second in 0..3u32 {
            table.put(first, second, Cond::Ne(A1, A2))?;
        }
    }
    table.put(CONTAINS, CONTAINS, Cond::True)?;
    Ok(table)
}

fn member_count(modes: &Modes, mode: u32) -> usize {
    if mode < modes.count() {
        modes.members(mode).len()
    } else {
        0
    }
}

fn are_compatible(modes: &Modes, held: u32, asked: u32) -> bool {
    held < modes.count() && asked < modes.count() && modes.compatible(held, asked)
}

#[test]
fn modes_of_a_set(rt: HostRuntime) -> Result<(), Fail> {
    let modes = compile(rt.alloc(), Kind::Set, &apart_set(rt.alloc())?)?;
    assert_eq!(rt; modes.count(), 6);
    let fewer = reduce(rt.alloc(), &modes)?;
    assert_eq!(rt; fewer.count(), 2);
    assert_eq!(rt; member_count(&fewer, 0), 2);
    assert_eq!(rt; member_count(&fewer, 1), 1);
    assert!(rt; !are_compatible(&fewer, 0, 0));
    assert!(rt; !are_compatible(&fewer, 0, 1));
    assert!(rt; !are_compatible(&fewer, 1, 0));
    assert!(rt; are_compatible(&fewer, 1, 1));
    Ok(())
}

#[test]
fn one_lock_for_all(rt: HostRuntime) -> Result<(), Fail> {
    let modes = compile(rt.alloc(), Kind::Set, &Table::blank(rt.alloc()))?;
    assert_eq!(rt; modes.count(), 3);
    let fewer = reduce(rt.alloc(), &modes)?;
    assert_eq!(rt; fewer.count(), 1);
    assert_eq!(rt; member_count(&fewer, 0), 3);
    assert!(rt; !are_compatible(&fewer, 0, 0));
    calls_clash_where_rows_are_false();
    reduced_modes_clash_alike();
    Ok(())
}

/// Whether the compiler refuses a table of domains at these two methods.
fn is_refused_at(alloc: Global, table: &Table, m: u32, n: u32) -> bool {
    match compile(alloc, Kind::Domains, table) {
        Err(CompileRefuse::NotSimple { first, second }) => first == m && second == n,
        _ => false,
    }
}

#[test]
fn domains_have_no_modes(rt: HostRuntime) -> Result<(), Fail> {
    let mut table = Table::blank(rt.alloc());
    table.put(CREDIT, CREDIT, Cond::True)?;
    table.put(TOTAL, WEIGH, Cond::Ne(Term::State(Side::First), A2))?;
    assert!(rt; is_refused_at(rt.alloc(), &table, TOTAL, WEIGH));
    table.put(WEIGH, TOTAL, Cond::Lt(A1, A2))?;
    assert!(rt; is_refused_at(rt.alloc(), &table, WEIGH, TOTAL));
    Ok(())
}
