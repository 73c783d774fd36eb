//! Weighted sums that fit 64 bits, of points that are reckoned with in 128.
ghost use Rattle.std.specs.Prelude.{◌≡◌, ◌+◌, ◌^◌, ◌<◌, ◌*ℤ◌, ◌↔◌, IsTrue, FitsSigned};
ghost use Rattle.std.specs.Prelude.{unsigned_abs};
ghost use Rattle.std.specs.Int.{w32, w64};
ghost use Rattle.viz_fraction.specs.Numbers.{point_of};
ghost use Rattle.viz_fraction.specs.Small.{IsSmall};
ghost use Rattle.viz_fraction.specs.Short.{IsShort};
ghost use Rattle.viz_fraction.specs.Mixes.{mix_of, mixed_of, IsShortMix};

use crate::crossings::Weights;
use crate::numbers::{Numbers, as_word, magnitude};

/// Weights are light where they are below this together.
const LIMIT: u128 = 1 << 32;

/// Both ends fit 32 bits, and so do their weights together.
#[inline(always)]
pub(crate) fn are_short(weights: &Weights, a: &Numbers, b: &Numbers) -> bool
    ensures { IsTrue result ↔ IsShortMix weights.now a.now b.now }
{
    let outside = magnitude(&weights.outside);
    let inside = magnitude(&weights.inside);
    outside < LIMIT && inside < LIMIT && outside + inside < LIMIT && is_short(a) && is_short(b)
}

/// All five numbers fit 32 bits.
#[inline(always)]
fn is_short(n: &Numbers) -> bool
    ensures { IsTrue result ↔ IsShort (point_of n.now) }
{
    is_half(&n.x) && is_half(&n.y) && is_half(&n.z) && is_half(&n.s) && is_half(&n.w)
}

/// The number fits 32 bits, half of a word.
#[inline(always)]
fn is_half(n: &i128) -> bool
    ensures { IsTrue result ↔ FitsSigned w32 n.now }
{
    *n >= i32::MIN as i128 && *n <= i32::MAX as i128
}

/// The outside end times its weight and the inside end times its weight, together.
#[inline(always)]
pub(crate) fn short_mixed(weights: &Weights, a: &Numbers, b: &Numbers) -> Numbers
    requires { IsShortMix weights.now a.now b.now }
    ensures value { result ≡ mixed_of weights.now a.now b.now }
    ensures small { IsSmall (point_of result) }
{
    Numbers {
        x: short_mix(weights, &a.x, &b.x),
        y: short_mix(weights, &a.y, &b.y),
        z: short_mix(weights, &a.z, &b.z),
        s: short_mix(weights, &a.s, &b.s),
        w: short_mix(weights, &a.w, &b.w),
    }
}

/// The same of one of the five numbers.
#[inline(always)]
fn short_mix(weights: &Weights, a: &i128, b: &i128) -> i128
    requires near { unsigned_abs weights.now.outside + unsigned_abs weights.now.inside < 2 ^ 32 }
    requires inside { FitsSigned w32 a.now }
    requires outside { FitsSigned w32 b.now }
    ensures value { result ≡ mix_of weights.now a.now b.now }
    ensures word { FitsSigned w64 result }
{
    let outside = short_product(&weights.outside, b);
    let inside = short_product(&weights.inside, a);
    i128::from(outside) + i128::from(inside)
}

/// A product that fits 64 bits.
#[inline(always)]
fn short_product(m: &i128, n: &i128) -> i64
    requires first { unsigned_abs m.now < 2 ^ 32 }
    requires second { FitsSigned w32 n.now }
    ensures { result ≡ m.now *ℤ n.now }
{
    as_word(m) * as_word(n)
}
