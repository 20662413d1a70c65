ghost use Rattle.std.specs.Prelude.{◌≡◌, ◌+◌, ◌-◌, ◌*◌, ◌^◌, ◌≤◌, ◌++◌, true, false, min, length, drop, IfSome, is_some};
ghost use Rattle.gx_base.specs.Conditions.{condition_of};
ghost use Rattle.cond_lattice.specs.Derivations.{is_derived};
ghost use Rattle.cond_lattice.specs.AnswerRows.{parts_of, row_for, rows_of, heavy_of, light_of, is_joined, is_and, AreSides, Begins, lower_answer_of, upper_answer_of};

use crate::same::same_condition;
use crate::simple::{is_false, is_true};
use gx_base::Cond;

// The row of c and d says of each part of d, a part after its sides, whether c is below it. The row of an
// `and` or an `or` is made from the rows of its two sides in one walk over d, so each pair of parts is
// looked at once.

/// How many answers may be kept at once.
pub(crate) const MOST_ANSWERS: usize = 4_194_304;

/// The number of parts.
pub(crate) fn parts(cond: &Cond) -> usize
    ensures { result ≡ min (parts_of (condition_of cond.now)) (2 ^ 64 - 1) }
{
    match cond {
        Cond::And(x, y) | Cond::Or(x, y) => parts(x).saturating_add(parts(y)).saturating_add(1),
        _ => 1,
    }
}

/// How many rows have to be kept at once while the row of a condition is made, where the side that wants
/// more comes first: as few as an expression wants registers (Ershov, On programming of arithmetic
/// operations, 1958), so at most one more than the logarithm of its parts.
pub(crate) fn rows_wanted(cond: &Cond) -> usize
    ensures { result ≡ rows_of (condition_of cond.now) }
{
    match cond {
        Cond::And(x, y) | Cond::Or(x, y) => {
            let left = rows_wanted(x);
            let right = rows_wanted(y);
            if left == right {
                left.saturating_add(1)
            } else {
                left.max(right)
            }
        }
        _ => 1,
    }
}

/// The sides of an `and` or an `or`: the one that wants more rows, and the other one.
fn by_rows(cond: &Cond) -> Option<(&Cond, &Cond)>
    ensures sides { IfSome result (λ both. (condition_of both.0.now ≡ heavy_of (condition_of cond.now)) × (condition_of both.1.now ≡ light_of (condition_of cond.now))) }
    ensures joined { is_joined (condition_of cond.now) ≡ is_some result }
{
    match cond {
        Cond::And(x, y) | Cond::Or(x, y) => {
            if rows_wanted(x) < rows_wanted(y) {
                Some((y, x))
            } else {
                Some((x, y))
            }
        }
        _ => None,
    }
}

/// The sides of an `and` or an `or`.
fn sides(cond: &Cond) -> Option<(&Cond, &Cond)>
    ensures sides { IfSome result (λ both. AreSides (condition_of cond.now) (condition_of both.0.now) (condition_of both.1.now)) }
    ensures joined { is_joined (condition_of cond.now) ≡ is_some result }
{
    match cond {
        Cond::And(x, y) | Cond::Or(x, y) => Some((x, y)),
        _ => None,
    }
}

fn is_and(cond: &Cond) -> bool
    ensures { result ≡ is_and (condition_of cond.now) }
{
    match cond {
        Cond::And(_, _) => true,
        _ => false,
    }
}

/// By its two sides, an `and` is below what one of them is below, and an `or` below what both are below.
fn lower_answer(heavy: bool, light: bool, is_and: bool) -> bool
    ensures { result ≡ lower_answer_of is_and heavy light }
{
    if is_and {
        heavy || light
    } else {
        heavy && light
    }
}

/// What is below an `and` is below both its sides. What is below an `or` is below one of them, or is below
/// it by its own sides.
fn upper_answer(left: bool, right: bool, own: bool, is_and: bool) -> bool
    ensures { result ≡ upper_answer_of is_and left right own }
{
    if is_and {
        left && right
    } else {
        left || right || own
    }
}

/// Makes the row of c and d, where c is no `and` and no `or`, at the front of `row`. Gives its length.
fn put_unit_row(row: &mut [bool], c: &Cond, d: &Cond) -> usize
    requires unit { is_joined (condition_of c.now) ≡ false }
    requires room { parts_of (condition_of d.now) ≤ length row.old }
    ensures count { result ≡ parts_of (condition_of d.now) }
    ensures row { row.new ≡ row_for (condition_of c.now) (condition_of d.now) ++ drop (parts_of (condition_of d.now)) row.old }
{
    let Some((x, y)) = sides(d) else {
        row[0] = is_false(c) || is_true(d) || same_condition(c, d);
        return 1;
    };
    let left = put_unit_row(row, c, x);
    let place = left + put_unit_row(&mut row[left..], c, y);
    row[place] = upper_answer(row[left - 1], row[place - 1], false, is_and(d));
    place + 1
}

/// From the rows of the two sides of c makes the row of c and d, in place of the first. Gives its length.
fn put_joined_row(row: &mut [bool], other: &[bool], c: &Cond, d: &Cond) -> usize
    requires joined { is_joined (condition_of c.now) ≡ true }
    requires room { parts_of (condition_of d.now) ≤ length row.old }
    requires heavy { Begins (row_for (heavy_of (condition_of c.now)) (condition_of d.now)) row.old }
    requires other_room { parts_of (condition_of d.now) ≤ length other.now }
    requires light { Begins (row_for (light_of (condition_of c.now)) (condition_of d.now)) other.now }
    ensures count { result ≡ parts_of (condition_of d.now) }
    ensures row { row.new ≡ row_for (condition_of c.now) (condition_of d.now) ++ drop (parts_of (condition_of d.now)) row.old }
{
    let Some((x, y)) = sides(d) else {
        row[0] = lower_answer(row[0], other[0], is_and(c));
        return 1;
    };
    let left = put_joined_row(row, other, c, x);
    let place = left + put_joined_row(&mut row[left..], &other[left..], c, y);
    let own = lower_answer(row[place], other[place], is_and(c));
    row[place] = upper_answer(row[left - 1], row[place - 1], own, is_and(d));
    place + 1
}

/// Makes the row of c and d at the front of `rows`, of which the rest is for further rows. Gives its length.
fn put_row(rows: &mut [bool], c: &Cond, d: &Cond) -> usize
    requires room { rows_of (condition_of c.now) * parts_of (condition_of d.now) ≤ length rows.old }
    requires few { length rows.old ≤ MOST_ANSWERS }
    ensures count { result ≡ parts_of (condition_of d.now) }
    ensures row { Begins (row_for (condition_of c.now) (condition_of d.now)) rows.new }
{
    let Some((first, second)) = by_rows(c) else {
        return put_unit_row(rows, c, d);
    };
    let count = put_row(rows, first, d);
    let (row, rest) = rows.split_at_mut(count);
    let _count = put_row(rest, second, d);
    put_joined_row(row, rest, c, d)
}

/// Whether c is below d, where so many answers are enough. They stand on the stack, so this isn't to become
/// a part of its callers, which call themselves.
#[inline(never)]
pub(crate) fn is_derived_by_rows<const ANSWERS: usize>(c: &Cond, d: &Cond) -> bool
    requires room { rows_of (condition_of c.now) * parts_of (condition_of d.now) ≤ ANSWERS }
    requires few { ANSWERS ≤ MOST_ANSWERS }
    ensures { result ≡ is_derived (condition_of c.now) (condition_of d.now) }
{
    let mut rows = [false; ANSWERS];
    let count = put_row(&mut rows, c, d);
    rows[count - 1]
}
