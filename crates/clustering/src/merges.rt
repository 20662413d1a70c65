//! What two points become.

ghost use Rattle.std.specs.Prelude.{◌≡◌, ◌≤◌, ◌*◌, ◌^◌, ℤ, pos, ◌+ℤ◌, ◌*ℤ◌, ◌<ℤ◌, unsigned_abs, int_le, true, false, None, IfSome};
ghost use Rattle.std.specs.Int.{w64, int_wrap, int_div_euclid};
ghost use Rattle.clustering.specs.Chain as chain;

use crate::stages::Merge;
use gx_base::Spot;

const TWO_TO_64: i128 = 1 << 64;

/// What is left of a number in 64 bits.
fn wrapped(number: i128) -> i64
    ensures { result ≡ int_wrap w64 number }
{
    let low = number.rem_euclid(TWO_TO_64);
    if low <= i64::MAX as i128 {
        low as i64
    } else {
        (low - TWO_TO_64) as i64
    }
}

fn times(weight: i64, coordinate: i64) -> i128
    ensures { result ≡ weight *ℤ coordinate }
{
    weight as i128 * coordinate as i128
}

fn product(weight: i64, coordinate: i64) -> i128
    ensures value { result ≡ weight *ℤ coordinate }
    ensures bound { unsigned_abs result ≤ unsigned_abs weight * 2 ^ 63 }
{
    times(weight, coordinate)
}

fn sum(first: i64, second: i64) -> i128
    ensures { result ≡ first +ℤ second }
{
    first as i128 + second as i128
}

/// The sum of two coordinates by their weights. Weights whose sum is positive aren't both as small as may be.
fn whole(first_weight: i64, first: i64, second_weight: i64, second: i64) -> i128
    requires { pos 0 <ℤ (first_weight +ℤ second_weight) }
    ensures { result ≡ (first_weight *ℤ first) +ℤ (second_weight *ℤ second) }
{
    product(first_weight, first) + product(second_weight, second)
}

fn quotient(whole: i128, weight: i128) -> i128
    requires { pos 0 <ℤ weight }
    ensures { result ≡ int_div_euclid whole weight }
{
    whole.div_euclid(weight)
}

/// The mean of two coordinates by their weights, rounded down, in 64 bits.
fn mean(first_weight: i64, first: i64, second_weight: i64, second: i64) -> i64
    requires { pos 0 <ℤ (first_weight +ℤ second_weight) }
    ensures { result ≡ chain.mean first_weight first second_weight second }
{
    let whole = whole(first_weight, first, second_weight, second);
    wrapped(quotient(whole, sum(first_weight, second_weight)))
}

/// The one point that two become.
fn merged(first: Spot, weight: i64, second: Spot, other: i64) -> Spot
    requires { pos 0 <ℤ (weight +ℤ other) }
    ensures { result ≡ chain.merged first weight second other }
{
    Spot {
        id: first.id,
        x: mean(weight, first.x, other, second.x),
        y: mean(weight, first.y, other, second.y),
        z: mean(weight, first.z, other, second.z),
    }
}

/// Two points of these weights as one, where the sum of the weights is positive.
pub fn merge_of(id: i64, first: Spot, weight: i64, second: Spot, other: i64) -> Option<Merge>
    ensures none { result ≡ None → int_le (weight +ℤ other) (pos 0) ≡ true }
    ensures some { IfSome result (λ merge. (int_le (weight +ℤ other) (pos 0) ≡ false) × (merge ≡ chain.merge_of id first weight second other)) }
{
    if sum(weight, other) <= 0 {
        return None;
    }
    Some(Merge {
        id,
        first,
        second,
        merged: merged(first, weight, second, other),
        weight: weight.wrapping_add(other),
    })
}

/// The cell that holds what a point became a part of.
pub fn into_key(id: i64) -> i64
    ensures { result ≡ chain.into_key id }
{
    1_000_000_i64.wrapping_add(id)
}

/// The cell that holds the weight of what a point became a part of.
pub fn weight_key(id: i64) -> i64
    ensures { result ≡ chain.weight_key id }
{
    2_000_000_i64.wrapping_add(id)
}
