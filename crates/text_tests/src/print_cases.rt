//! What is printed of conditions and tables, by hand.

use cond_print::{print_cond, print_table};
use gx_base::{Cond, Kind, NoMemory, Part, Side, Table, Term};
use std::alloc::Global;
use std::test::Fail;

const A1: Term = Term::Value(Side::First, 0);

const A2: Term = Term::Value(Side::Second, 0);

/// `a1 = a2`.
const SAME: Cond = Cond::Eq(A1, A2);

/// `a1 != a2`.
const APART: Cond = Cond::Ne(A1, A2);

/// `a1 < a2`.
const BEFORE: Cond = Cond::Lt(A1, A2);

fn and(alloc: Global, x: Cond, y: Cond) -> Result<Cond, NoMemory> {
    let left = Box::new(alloc, x)?;
    let right = Box::new(alloc, y)?;
    Ok(Cond::And(left, right))
}

fn or(alloc: Global, x: Cond, y: Cond) -> Result<Cond, NoMemory> {
    let left = Box::new(alloc, x)?;
    let right = Box::new(alloc, y)?;
    Ok(Cond::Or(left, right))
}

fn not(alloc: Global, x: Cond) -> Result<Cond, NoMemory> {
    let inner = Box::new(alloc, x)?;
    Ok(Cond::Not(inner))
}

/// Whether a condition is printed like this.
fn is_printed(alloc: Global, cond: &Cond, text: &str) -> Result<bool, NoMemory> {
    Ok(print_cond(alloc, cond)?.as_str() == text)
}

/// Whether a comparison of a term with 1 is printed like this.
fn with_one(alloc: Global, term: Term, text: &str) -> Result<bool, NoMemory> {
    is_printed(alloc, &Cond::Eq(term, Term::Const(1)), text)
}

#[test]
fn comparisons(rt: HostRuntime) -> Result<(), Fail> {
    for (cond, text) in [
        (Cond::True, "true"),
        (Cond::False, "false"),
        (SAME, "a1 = a2"),
        (APART, "a1 != a2"),
        (BEFORE, "a1 < a2"),
        (Cond::Le(A2, A1), "a2 <= a1"),
    ] {
        assert!(rt; is_printed(rt.alloc(), &cond, text)?, "{text}");
    }
    Ok(())
}

#[test]
fn terms(rt: HostRuntime) -> Result<(), Fail> {
    let alloc = rt.alloc();
    for (place, side, text) in [
        (0, Side::First, "a1 = 1"),
        (1, Side::Second, "b2 = 1"),
        (2, Side::First, "c1 = 1"),
        (3, Side::Second, "d2 = 1"),
        (4, Side::First, "p1 = 1"),
        (5, Side::Second, "q2 = 1"),
        (6, Side::First, "r1 = 1"),
        (7, Side::Second, "s2 = 1"),
        (8, Side::First, "0 = 1"),
        (u32::MAX, Side::Second, "0 = 1"),
    ] {
        assert!(rt; with_one(alloc, Term::Value(side, place), text)?, "{text}");
    }
    Ok(())
}

#[test]
fn functions_of_both_calls(rt: HostRuntime) -> Result<(), Fail> {
    let far = Term::Beyond(Part::ArgFirst, Part::ArgSecond, Part::RepFirst);
    let near = Term::Beyond(Part::RepSecond, Part::RepSecond, Part::ArgFirst);
    for (term, text) in [
        (far, "beyond(arg1, arg2, rep1) = 1"),
        (near, "beyond(rep2, rep2, arg1) = 1"),
        (Term::State(Side::First), "dom1 = 1"),
        (Term::State(Side::Second), "dom2 = 1"),
    ] {
        assert!(rt; with_one(rt.alloc(), term, text)?, "{text}");
    }
    Ok(())
}

#[test]
fn constants(rt: HostRuntime) -> Result<(), Fail> {
    let alloc = rt.alloc();
    for (number, text) in [
        (0, "0 = 1"),
        (70, "70 = 1"),
        (-1, "-1 = 1"),
        (i64::MAX, "9223372036854775807 = 1"),
        (i64::MIN, "-9223372036854775808 = 1"),
    ] {
        assert!(rt; with_one(alloc, Term::Const(number), text)?, "{text}");
    }
    Ok(())
}

/// Takes the last condition off.
fn last(stack: &mut Vec<Cond>) -> Cond {
    match stack.pop() {
        Some(cond) => cond,
        None => Cond::False,
    }
}

/// A condition in postfix order: `=`, `#` and `<` compare `a1` with `a2`, `T` is true, and `!`, `&` and `|` join.
fn condition(alloc: Global, signs: &str) -> Result<Cond, NoMemory> {
    let mut stack = Vec::new(alloc);
    for sign in signs.as_bytes() {
        let right = match *sign {
            b'=' => SAME,
            b'#' => APART,
            b'<' => BEFORE,
            b'T' => Cond::True,
            _ => last(&mut stack),
        };
        let whole = match *sign {
            b'!' => not(alloc, right)?,
            b'&' => and(alloc, last(&mut stack), right)?,
            b'|' => or(alloc, last(&mut stack), right)?,
            _ => right,
        };
        stack.push(whole)?;
    }
    Ok(last(&mut stack))
}

/// Conditions, and how they are printed.
const PARENTHESES: [(&str, &str); 12] = [
    ("=#|<&", "(a1 = a2 or a1 != a2) and a1 < a2"),
    ("=#<|&", "a1 = a2 and (a1 != a2 or a1 < a2)"),
    ("=#&<&", "a1 = a2 and a1 != a2 and a1 < a2"),
    ("=#<&&", "a1 = a2 and (a1 != a2 and a1 < a2)"),
    ("=#|<|", "a1 = a2 or a1 != a2 or a1 < a2"),
    ("=#<||", "a1 = a2 or (a1 != a2 or a1 < a2)"),
    ("=#&#<&|", "a1 = a2 and a1 != a2 or a1 != a2 and a1 < a2"),
    ("=!", "not a1 = a2"),
    ("T!!", "not not true"),
    ("=#|!", "not (a1 = a2 or a1 != a2)"),
    ("=#&!", "not (a1 = a2 and a1 != a2)"),
    ("=!#!&", "not a1 = a2 and not a1 != a2"),
];

#[test]
fn parentheses_stand_where_they_are_needed(rt: HostRuntime) -> Result<(), Fail> {
    let alloc = rt.alloc();
    for (signs, text) in PARENTHESES {
        assert!(rt;
            is_printed(alloc, &condition(alloc, signs)?, text)?,
            "{text}"
        );
    }
    Ok(())
}

/// The calls have different values, or the first leaves all as it was.
fn apart_or_idle(alloc: Global) -> Result<Cond, NoMemory> {
    or(
        alloc,
        APART,
        Cond::Eq(Term::Value(Side::First, 4), Term::Const(0)),
    )
}

const SET_TEXT: &str = "type set
add add : a1 != a2 or p1 = 0
add remove : a1 != a2
add contains : a1 != a2 or p1 = 0
remove add : false
remove remove : false
remove contains : a1 != a2
contains add : false
contains remove : false
contains contains : true
";

#[test]
fn tables(rt: HostRuntime) -> Result<(), Fail> {
    let alloc = rt.alloc();
    let mut table = Table::blank(alloc);
    // The last is a row of another kind's method.
    for (first, second, cond) in [
        (2, 2, Cond::True),
        (1, 2, APART),
        (0, 2, apart_or_idle(alloc)?),
        (0, 1, APART),
        (0, 0, apart_or_idle(alloc)?),
        (0, 8, Cond::True),
    ] {
        table.put(first, second, cond)?;
    }
    assert!(rt; print_table(alloc, Kind::Set, &table)?.as_str() == SET_TEXT);
    Ok(())
}

#[test]
fn each_kind(rt: HostRuntime) -> Result<(), Fail> {
    let alloc = rt.alloc();
    let table = Table::blank(alloc);
    for (kind, front, lines) in [
        (Kind::Set, "type set\nadd add : false\n", 10),
        (Kind::Cells, "type cells\nread read : false\n", 10),
        (Kind::Flow, "type flow\nheight height : false\n", 37),
        (Kind::Points, "type points\nadd add : false\n", 17),
        (Kind::Domains, "type domains\nweigh weigh : false\n", 26),
    ] {
        let printed = print_table(alloc, kind, &table)?;
        assert!(rt; printed.as_str().starts_with(front));
        assert!(rt; printed.as_str().lines().count() == lines);
    }
    Ok(())
}
