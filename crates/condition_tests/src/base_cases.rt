//! What no clause says: that calls succeed, and values worked by hand.

use gx_base::{
    Call, Cond, Kind, Made, NoMemory, Part, Reply, Seen, Side, Spot, Table, Term, beyond, eval,
    method_at, method_of, word_of,
};
use std::alloc::Global;
use std::test::Fail;

/// Each kind's methods, in rising order.
const METHODS: [(Kind, &str, u32); 21] = [
    (Kind::Set, "add", 0),
    (Kind::Set, "remove", 1),
    (Kind::Set, "contains", 2),
    (Kind::Cells, "read", 8),
    (Kind::Cells, "add", 9),
    (Kind::Cells, "set", 10),
    (Kind::Flow, "height", 16),
    (Kind::Flow, "relabel", 17),
    (Kind::Flow, "excess", 18),
    (Kind::Flow, "gain", 19),
    (Kind::Flow, "flow", 20),
    (Kind::Flow, "send", 21),
    (Kind::Points, "add", 32),
    (Kind::Points, "remove", 33),
    (Kind::Points, "at", 34),
    (Kind::Points, "nearest", 35),
    (Kind::Domains, "weigh", 48),
    (Kind::Domains, "total", 49),
    (Kind::Domains, "move", 50),
    (Kind::Domains, "credit", 51),
    (Kind::Domains, "sum", 52),
];

#[test]
fn methods_have_their_words(rt: HostRuntime) {
    for (kind, word, number) in METHODS {
        assert!(rt; method_of(kind, word) == Some(number));
        assert!(rt; word_of(number) == word);
    }
    assert!(rt; method_of(Kind::Set, "read") == None);
    assert!(rt; method_of(Kind::Cells, "adds") == None);
    assert!(rt; method_of(Kind::Domains, "") == None);
    for number in [3, 7, 11, 15, 22, 31, 36, 47, 53] {
        assert!(rt; word_of(number) == "?");
    }
}

#[test]
fn methods_have_their_places(rt: HostRuntime) {
    assert!(rt; method_at(Kind::Set, 2) == Some(2));
    assert!(rt; method_at(Kind::Set, 3) == None);
    assert!(rt; method_at(Kind::Flow, 5) == Some(21));
    assert!(rt; method_at(Kind::Flow, 6) == None);
    assert!(rt; method_at(Kind::Domains, 4) == Some(52));
    assert!(rt; method_at(Kind::Domains, u32::MAX) == None);
}

fn spot(id: i64, x: i64, y: i64) -> Spot {
    Spot { id, x, y, z: 0 }
}

#[test]
fn farther_points_are_beyond(rt: HostRuntime) {
    let origin = spot(5, 0, 0);
    assert!(rt; beyond(origin, spot(1, 4, 0), spot(2, 3, 0)));
    assert!(rt; !beyond(origin, spot(1, 3, 0), spot(2, 4, 0)));
    // At one distance the smaller of the two numbers decides, and then the larger.
    assert!(rt; beyond(origin, spot(2, 3, 4), spot(1, 5, 0)));
    assert!(rt; beyond(origin, spot(9, 3, 4), spot(7, 0, 5)));
    assert!(rt; !beyond(origin, spot(7, 3, 4), spot(7, 0, 5)));
    // The third coordinate doesn't count.
    let high = Spot {
        z: 100,
        ..spot(1, 1, 0)
    };
    assert!(rt; beyond(origin, spot(2, 2, 0), high));
    // Two distances that are past the greatest number are alike, and the numbers decide.
    let low = spot(0, i64::MIN, i64::MIN);
    assert!(rt;
        beyond(
            low,
            spot(2, i64::MAX, i64::MAX),
            spot(1, i64::MAX, i64::MAX - 1)
        )
    );
    assert!(rt;
        beyond(
            low,
            spot(2, i64::MAX, i64::MAX - 1),
            spot(1, i64::MAX, i64::MAX)
        )
    );
}

fn made(method: u32, values: [i64; 4], replies: [i64; 4]) -> Made {
    let [a, b, c, d] = values;
    let [p, q, r, s] = replies;
    Made {
        call: Call::new(method, a, b, c, d),
        reply: Reply::new(p, q, r, s),
    }
}

#[test]
fn terms_have_their_values(rt: HostRuntime) {
    let first = made(32, [1, 10, 20, 30], [40, 50, 60, 70]);
    let second = made(35, [2, 11, 21, 31], [41, 51, 61, 71]);
    let seen = Seen {
        first: 8,
        second: 9,
    };
    let want = [
        (Side::First, [1, 10, 20, 30, 40, 50, 60, 70, 0]),
        (Side::Second, [2, 11, 21, 31, 41, 51, 61, 71, 0]),
    ];
    for (side, values) in want {
        for (place, value) in (0..).zip(values) {
            let cond = Cond::Eq(Term::Value(side, place), Term::Const(value));
            assert!(rt; eval(&cond, &first, &second, seen));
        }
    }
    let sides = Cond::Lt(Term::State(Side::First), Term::State(Side::Second));
    assert!(rt; eval(&sides, &first, &second, seen));
    // (1, 10, 20) is at distance 2 from (2, 11, 21), and farther from both replies.
    let near = Term::Beyond(Part::ArgFirst, Part::ArgSecond, Part::RepFirst);
    let far = Term::Beyond(Part::ArgFirst, Part::RepSecond, Part::ArgSecond);
    assert!(rt; eval(&Cond::Eq(near, Term::Const(0)), &first, &second, seen));
    assert!(rt; eval(&Cond::Eq(far, Term::Const(1)), &first, &second, seen));
}

fn both(alloc: Global, left: Cond, right: Cond) -> Result<Cond, Fail> {
    Ok(Cond::And(Box::new(alloc, left)?, Box::new(alloc, right)?))
}

fn either(alloc: Global, left: Cond, right: Cond) -> Result<Cond, Fail> {
    Ok(Cond::Or(Box::new(alloc, left)?, Box::new(alloc, right)?))
}

/// `a1 != a2 or (p1 = 0 and p2 = 0)`, of two calls that add to a set.
fn two_adds(alloc: Global) -> Result<Cond, Fail> {
    let apart = Cond::Ne(Term::Value(Side::First, 0), Term::Value(Side::Second, 0));
    let first = Cond::Eq(Term::Value(Side::First, 4), Term::Const(0));
    let second = Cond::Eq(Term::Value(Side::Second, 4), Term::Const(0));
    either(alloc, apart, both(alloc, first, second)?)
}

/// An add of a number to a set, with its reply.
fn add(number: i64, reply: i64) -> Made {
    made(0, [number, 0, 0, 0], [reply, 0, 0, 0])
}

const UNSEEN: Seen = Seen {
    first: 0,
    second: 0,
};

/// Two adds under a condition: of two numbers, and of one number with these replies.
fn on_adds(cond: &Cond) -> [bool; 3] {
    [
        eval(cond, &add(1, 1), &add(2, 1), UNSEEN),
        eval(cond, &add(1, 1), &add(1, 0), UNSEEN),
        eval(cond, &add(1, 0), &add(1, 0), UNSEEN),
    ]
}

#[test]
fn conditions_are_evaluated(rt: HostRuntime) -> Result<(), Fail> {
    let alloc = rt.alloc();
    let cond = two_adds(alloc)?;
    assert!(rt; on_adds(&cond) == [true, false, true]);
    let not = Cond::Not(Box::new(alloc, cond)?);
    assert!(rt; on_adds(&not) == [false, true, false]);
    let at_most = Cond::Le(Term::Value(Side::First, 0), Term::Value(Side::Second, 0));
    assert!(rt; on_adds(&at_most) == [true, true, true]);
    let below = Cond::Lt(Term::Value(Side::First, 0), Term::Value(Side::Second, 0));
    assert!(rt; on_adds(&below) == [true, false, false]);
    assert!(rt; on_adds(&both(alloc, Cond::True, Cond::False)?) == [false; 3]);
    Ok(())
}

fn remembered<T>(kept: Result<T, NoMemory>) -> Result<T, Fail> {
    Ok(kept.ok().ok_or("no memory")?)
}

#[test]
fn tables_keep_their_rows(rt: HostRuntime) -> Result<(), Fail> {
    let alloc = rt.alloc();
    let mut table = Table::blank(alloc);
    assert!(rt; on_adds(table.row(0, 0)) == [false; 3]);
    remembered(table.put(0, 0, Cond::True))?;
    remembered(table.put(0, 1, Cond::True))?;
    remembered(table.put(0, 0, two_adds(alloc)?))?;
    let copy = remembered(table.copy())?;
    remembered(table.put(0, 1, Cond::False))?;
    for rows in [&table, &copy] {
        assert!(rt; on_adds(rows.row(0, 0)) == [true, false, true]);
        assert!(rt; on_adds(rows.row(1, 0)) == [false; 3]);
    }
    assert!(rt; on_adds(table.row(0, 1)) == [false; 3]);
    assert!(rt; on_adds(copy.row(0, 1)) == [true; 3]);
    let twin = remembered(copy.row(0, 0).copy(alloc))?;
    assert!(rt; on_adds(&twin) == [true, false, true]);
    Ok(())
}

#[test]
fn tables_are_told_apart(rt: HostRuntime) -> Result<(), Fail> {
    let alloc = rt.alloc();
    let mut one = Table::blank(alloc);
    let mut other = Table::blank(alloc);
    // An explicit `False` is a row that was never put. These two pairs share a bucket.
    remembered(one.put(3, 11, Cond::False))?;
    assert!(rt; one.equals(&other) && other.equals(&one));
    remembered(one.put(11, 3, two_adds(alloc)?))?;
    assert!(rt; !one.equals(&other) && !other.equals(&one));
    remembered(other.put(11, 3, two_adds(alloc)?))?;
    assert!(rt; one.equals(&other));
    Ok(())
}
