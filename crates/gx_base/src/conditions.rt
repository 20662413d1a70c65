ghost use Rattle.std.specs.Prelude.{◌≡◌, ◌↔◌, IfOk, IsTrue};
ghost use Rattle.gx_base.specs.Conditions.{value_of, spot_of_part, term_value, condition_of, holds};

use crate::calls::{Made, Seen, Spot};
use crate::memory::NoMemory;
use crate::spots::{beyond, spot_of_call, spot_of_reply};
use std::alloc::Global;

/// One of two calls.
#[derive(Clone, Copy, Debug, PartialEq, Eq, Drop)]
pub enum Side {
    First,
    Second,
}

/// The four arguments or the four replies of a call, taken as a point.
#[derive(Clone, Copy, Debug, PartialEq, Eq, Drop)]
pub enum Part {
    ArgFirst,
    ArgSecond,
    RepFirst,
    RepSecond,
}

/// A term of a condition.
#[derive(Clone, Copy, Debug, PartialEq, Eq, Drop)]
pub enum Term {
    Const(i64),
    /// The value at a place, from 0 to 7, among the arguments `a` to `d` and the replies `p` to `s` of
    /// a call. Past 7 it is 0.
    Value(Side, u32),
    /// 1 where the second point is farther from the first than the third is, else 0.
    Beyond(Part, Part, Part),
    /// The state function at the first argument of a call, in the state before the first call.
    State(Side),
}

/// A condition on two calls with their replies. What walks it recurses as deep as its tree.
#[derive(Debug, Drop)]
pub enum Cond {
    True,
    False,
    Eq(Term, Term),
    Ne(Term, Term),
    Lt(Term, Term),
    Le(Term, Term),
    And(Box<Cond>, Box<Cond>),
    Or(Box<Cond>, Box<Cond>),
    Not(Box<Cond>),
}

fn value(made: &Made, place: u32) -> i64
    ensures { result ≡ value_of made.now place }
{
    match place {
        0 => made.call.a,
        1 => made.call.b,
        2 => made.call.c,
        3 => made.call.d,
        4 => made.reply.p,
        5 => made.reply.q,
        6 => made.reply.r,
        7 => made.reply.s,
        _ => 0,
    }
}

fn spot(part: Part, first: &Made, second: &Made) -> Spot
    ensures { result ≡ spot_of_part part first.now second.now }
{
    match part {
        Part::ArgFirst => spot_of_call(first.call),
        Part::ArgSecond => spot_of_call(second.call),
        Part::RepFirst => spot_of_reply(first.reply),
        Part::RepSecond => spot_of_reply(second.reply),
    }
}

fn meaning(term: Term, first: &Made, second: &Made, seen: Seen) -> i64
    ensures { result ≡ term_value term first.now second.now seen }
{
    match term {
        Term::Const(number) => number,
        Term::Value(Side::First, place) => value(first, place),
        Term::Value(Side::Second, place) => value(second, place),
        Term::Beyond(x, y, z) => {
            let far = beyond(
                spot(x, first, second),
                spot(y, first, second),
                spot(z, first, second),
            );
            if far { 1 } else { 0 }
        }
        Term::State(Side::First) => seen.first,
        Term::State(Side::Second) => seen.second,
    }
}

/// The truth of a condition.
pub fn eval(cond: &Cond, first: &Made, second: &Made, seen: Seen) -> bool
    ensures { result ≡ holds (condition_of cond.now) first.now second.now seen }
{
    match cond {
        Cond::True => true,
        Cond::False => false,
        Cond::Eq(x, y) => meaning(*x, first, second, seen) == meaning(*y, first, second, seen),
        Cond::Ne(x, y) => meaning(*x, first, second, seen) != meaning(*y, first, second, seen),
        Cond::Lt(x, y) => meaning(*x, first, second, seen) < meaning(*y, first, second, seen),
        Cond::Le(x, y) => meaning(*x, first, second, seen) <= meaning(*y, first, second, seen),
        Cond::And(x, y) => eval(x, first, second, seen) && eval(y, first, second, seen),
        Cond::Or(x, y) => eval(x, first, second, seen) || eval(y, first, second, seen),
        Cond::Not(x) => !eval(x, first, second, seen),
    }
}

impl Cond {
    /// The same condition.
    pub fn copy(&self, alloc: Global) -> Result<Cond, NoMemory>
        ensures { IfOk result (λ copy. condition_of copy ≡ condition_of self.now) }
    {
        match self {
            Cond::True => Ok(Cond::True),
            Cond::False => Ok(Cond::False),
            Cond::Eq(x, y) => Ok(Cond::Eq(*x, *y)),
            Cond::Ne(x, y) => Ok(Cond::Ne(*x, *y)),
            Cond::Lt(x, y) => Ok(Cond::Lt(*x, *y)),
            Cond::Le(x, y) => Ok(Cond::Le(*x, *y)),
            Cond::And(x, y) => {
                let left = x.copy(alloc)?;
                let right = y.copy(alloc)?;
                let left = boxed(alloc, left)?;
                let right = boxed(alloc, right)?;
                Ok(Cond::And(left, right))
            }
            Cond::Or(x, y) => {
                let left = x.copy(alloc)?;
                let right = y.copy(alloc)?;
                let left = boxed(alloc, left)?;
                let right = boxed(alloc, right)?;
                Ok(Cond::Or(left, right))
            }
            Cond::Not(x) => {
                let inner = x.copy(alloc)?;
                let inner = boxed(alloc, inner)?;
                Ok(Cond::Not(inner))
            }
        }
    }

    /// Whether the two are one and the same tree.
    pub fn equals(&self, other: &Cond) -> bool
        ensures { IsTrue result ↔ (condition_of self.now ≡ condition_of other.now) }
    {
        match (self, other) {
            (Cond::True, Cond::True) | (Cond::False, Cond::False) => true,
            (Cond::Eq(x, y), Cond::Eq(u, v)) => x.equals(*u) && y.equals(*v),
            (Cond::Ne(x, y), Cond::Ne(u, v)) => x.equals(*u) && y.equals(*v),
            (Cond::Lt(x, y), Cond::Lt(u, v)) => x.equals(*u) && y.equals(*v),
            (Cond::Le(x, y), Cond::Le(u, v)) => x.equals(*u) && y.equals(*v),
            (Cond::And(x, y), Cond::And(u, v)) => x.equals(u) && y.equals(v),
            (Cond::Or(x, y), Cond::Or(u, v)) => x.equals(u) && y.equals(v),
            (Cond::Not(x), Cond::Not(u)) => x.equals(u),
            _ => false,
        }
    }
}

impl Term {
    /// Whether the two are one and the same term.
    pub fn equals(self, other: Term) -> bool
        ensures { IsTrue result ↔ (self ≡ other) }
    {
        match (self, other) {
            (Term::Const(m), Term::Const(n)) => m == n,
            (Term::Value(s, i), Term::Value(t, j)) => s == t && i == j,
            (Term::Beyond(p, q, r), Term::Beyond(u, v, w)) => p == u && q == v && r == w,
            (Term::State(s), Term::State(t)) => s == t,
            _ => false,
        }
    }
}

/// The condition in a box.
pub fn boxed(alloc: Global, cond: Cond) -> Result<Box<Cond>, NoMemory>
    ensures { IfOk result (λ held. condition_of held.value ≡ condition_of cond) }
{
    match Box::new(alloc, cond) {
        Ok(held) => Ok(held),
        Err(_) => Err(NoMemory),
    }
}
