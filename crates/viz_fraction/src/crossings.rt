//! Where a form is 0 between an inside and an outside end.
ghost use Rattle.std.specs.Prelude.{◌≡◌, ◌/◌, ◌^◌, ◌<◌, ◌≤◌, pos, ◌*ℤ◌, ◌≤ℤ◌, ◌<ℤ◌, ◌↔◌, IfOk};
ghost use Rattle.std.specs.Prelude.{IsOk};
ghost use Rattle.viz_fraction.specs.Points.{IsNarrow, IsPoint, reduced};
ghost use Rattle.viz_fraction.specs.Numbers.{point_of};
ghost use Rattle.viz_fraction.specs.Crossings.{inside_weight, outside_weight, crossing_of};
ghost use Rattle.viz_fraction.specs.Crossings.{IsNarrowCrossing};
ghost use Rattle.viz_fraction.specs.Mixes.{mix_of, mixed_of, IsLowestWeights, IsNarrowMix};
ghost use Rattle.viz_fraction.specs.Mixes.{IsNarrowSum};

use crate::divisors::common_divisor;
use crate::numbers::{Numbers, magnitude};
use crate::points::{Point5, TooWide, lowest_terms};
use crate::products::{product, sum};
use crate::short_crossings::{are_short, short_mixed};
use crate::steps::step_divisor;

/// What an outside and an inside end count for in their crossing: positive numbers or 0, without a
/// common divisor but 1.
#[derive(Clone, Copy)]
pub(crate) struct Weights {
    pub outside: i128,
    pub inside: i128,
}

/// The crossing of a form on the edge from an inside end `a`, where its value is `la`, to an
/// outside end `b`, where its value is `lb`.
///
/// # Errors
///
/// `TooWide` exactly where a term or a sum is wide.
pub fn crossing(la: i128, a: &Point5, lb: i128, b: &Point5) -> Result<Point5, TooWide>
    requires inside { pos 0 ≤ℤ la }
    requires outside { lb <ℤ pos 0 }
    requires narrow_inside { IsNarrow la }
    requires narrow_outside { IsNarrow lb }
    ensures value { IfOk result (λ p. p ≡ crossing_of la a.now lb b.now) }
    ensures succeeds { IsOk result ↔ IsNarrowCrossing la a.now lb b.now }
{
    crossing_at(&weights_of(&la, &lb), &a.numbers(), &b.numbers())
}

/// The crossing of two ends with their weights.
#[inline(always)]
fn crossing_at(weights: &Weights, a: &Numbers, b: &Numbers) -> Result<Point5, TooWide>
    requires inside { IsPoint (point_of a.now) }
    requires outside { IsPoint (point_of b.now) }
    requires weights { IsLowestWeights weights.now }
    ensures value { IfOk result (λ p. p ≡ reduced (point_of (mixed_of weights.now a.now b.now))) }
    ensures succeeds { IsOk result ↔ IsNarrowMix weights.now a.now b.now }
{
    let numbers = mixed(weights, a, b)?;
    Ok(lowest_terms(step_divisor(a, b), &numbers))
}

/// The weights of an outside end of value `lb` and an inside end of value `la`.
#[inline(always)]
fn weights_of(la: &i128, lb: &i128) -> Weights
    requires outside { lb.now <ℤ pos 0 }
    requires narrow_inside { IsNarrow la.now }
    requires narrow_outside { IsNarrow lb.now }
    ensures outside { result.outside ≡ pos (outside_weight la.now lb.now) }
    ensures inside { result.inside ≡ pos (inside_weight la.now lb.now) }
    ensures lowest { IsLowestWeights result }
{
    let inside = magnitude(la);
    let outside = magnitude(lb);
    let divisor = common_divisor(inside, outside);
    Weights {
        outside: share(inside, divisor),
        inside: share(outside, divisor),
    }
}

/// A magnitude divided by a divisor of it.
#[inline(always)]
fn share(magnitude: u128, divisor: u128) -> i128
    requires some { 0 < divisor }
    requires narrow { magnitude ≤ 2 ^ 120 }
    ensures { result ≡ pos (magnitude / divisor) }
{
    if divisor == 1 {
        return magnitude as i128;
    }
    if magnitude <= u64::MAX as u128 && divisor <= u64::MAX as u128 {
        return i128::from(magnitude as u64 / divisor as u64);
    }
    (magnitude / divisor) as i128
}

/// The outside end times its weight and the inside end times its weight, together.
#[inline(always)]
fn mixed(weights: &Weights, a: &Numbers, b: &Numbers) -> Result<Numbers, TooWide>
    ensures value { IfOk result (λ n. n ≡ mixed_of weights.now a.now b.now) }
    ensures succeeds { IsOk result ↔ IsNarrowMix weights.now a.now b.now }
{
    if are_short(weights, a, b) {
        return Ok(short_mixed(weights, a, b));
    }
    long_mixed(weights, a, b)
}

/// The same of any numbers.
#[inline(never)]
fn long_mixed(weights: &Weights, a: &Numbers, b: &Numbers) -> Result<Numbers, TooWide>
    ensures value { IfOk result (λ n. n ≡ mixed_of weights.now a.now b.now) }
    ensures succeeds { IsOk result ↔ IsNarrowMix weights.now a.now b.now }
{
    let x = mix(weights, &a.x, &b.x)?;
    let y = mix(weights, &a.y, &b.y)?;
    let z = mix(weights, &a.z, &b.z)?;
    let s = mix(weights, &a.s, &b.s)?;
    let w = mix(weights, &a.w, &b.w)?;
    Ok(Numbers { x, y, z, s, w })
}

/// The same of one of the five numbers.
fn mix(weights: &Weights, a: &i128, b: &i128) -> Result<i128, TooWide>
    ensures value { IfOk result (λ n. n ≡ mix_of weights.now a.now b.now) }
    ensures succeeds { IsOk result ↔ IsNarrowSum (weights.now.outside *ℤ b.now)
        (weights.now.inside *ℤ a.now) }
{
    let outside = product(&weights.outside, b)?;
    let inside = product(&weights.inside, a)?;
    sum(&outside, &inside)
}
