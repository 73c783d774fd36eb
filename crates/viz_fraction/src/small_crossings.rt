//! Crossings of short ends in 64 bits throughout, as those on a grid of whole numbers.
ghost use Rattle.std.specs.Prelude.{◌≡◌, ◌+◌, ◌/◌, ◌^◌, ◌<◌, ◌≤◌, pos, ◌*ℤ◌, ◌≤ℤ◌, ◌<ℤ◌, ◌↔◌};
ghost use Rattle.std.specs.Prelude.{IfSome, IsSome, IsTrue, FitsSigned};
ghost use Rattle.std.specs.Int.{w32};
ghost use Rattle.viz_fraction.specs.Points.{IsPoint, reduced};
ghost use Rattle.viz_fraction.specs.Numbers.{point_of};
ghost use Rattle.viz_fraction.specs.Small.{IsSmall};
ghost use Rattle.viz_fraction.specs.Short.{IsShortCrossing};
ghost use Rattle.viz_fraction.specs.Crossings.{inside_weight, outside_weight, crossing_of};
ghost use Rattle.viz_fraction.specs.Mixes.{mix_of, mixed_of, IsLowestWeights, IsShortMix};
ghost use Rattle.viz_fraction.specs.Words.{numbers_of, weights_of};

use crate::divisors::word_divisor;
use crate::small_points::{SmallPoint, small_lowest_terms};
use crate::words::{Words, word_step_divisor};

/// Shares are light where they are below this together.
const LIMIT: u64 = 1 << 32;

/// What an outside and an inside end count for in their crossing, without a common divisor but 1:
/// weights of 64 bits.
#[derive(Clone, Copy)]
pub(crate) struct Shares {
    pub outside: u64,
    pub inside: u64,
}

/// The crossing of a form on the edge from an inside end `a`, where its value is `la`, to an
/// outside end `b`, where its value is `lb`, where both ends are short, and their weights too;
/// `crossing` serves elsewhere.
#[inline(always)]
pub fn small_crossing(la: i64, a: &SmallPoint, lb: i64, b: &SmallPoint) -> Option<SmallPoint>
    requires inside { pos 0 ≤ℤ la }
    requires outside { lb <ℤ pos 0 }
    ensures value { IfSome result (λ p. p ≡ crossing_of la a.now lb b.now) }
    ensures some { IsSome result ↔ IsShortCrossing la a.now lb b.now }
{
    small_crossing_at(&shares_of(la, lb), &a.words(), &b.words())
}

/// The shares of an outside end of value `lb` and an inside end of value `la`.
#[inline(always)]
fn shares_of(la: i64, lb: i64) -> Shares
    requires inside { pos 0 ≤ℤ la }
    requires outside { lb <ℤ pos 0 }
    ensures outside { result.outside ≡ outside_weight la lb }
    ensures inside { result.inside ≡ inside_weight la lb }
    ensures lowest { IsLowestWeights (weights_of result) }
    ensures room { result.outside + result.inside < 2 ^ 64 }
{
    let inside = la.unsigned_abs();
    let outside = lb.unsigned_abs();
    let divisor = word_divisor(outside, inside);
    Shares {
        outside: share(inside, divisor),
        inside: share(outside, divisor),
    }
}

/// A magnitude divided by a divisor of it.
#[inline(always)]
fn share(magnitude: u64, divisor: u64) -> u64
    requires { 0 < divisor }
    ensures value { result ≡ magnitude / divisor }
    ensures most { result ≤ magnitude }
{
    if divisor == 1 {
        return magnitude;
    }
    magnitude / divisor
}

/// The small crossing of two ends with their shares.
#[inline(always)]
fn small_crossing_at(shares: &Shares, a: &Words, b: &Words) -> Option<SmallPoint>
    requires inside { IsPoint (point_of (numbers_of a.now)) }
    requires outside { IsPoint (point_of (numbers_of b.now)) }
    requires shares { IsLowestWeights (weights_of shares.now) }
    requires room { shares.now.outside + shares.now.inside < 2 ^ 64 }
    ensures value { IfSome result (λ p. p ≡ reduced (point_of
        (mixed_of (weights_of shares.now) (numbers_of a.now) (numbers_of b.now)))) }
    ensures some { IsSome result
        ↔ IsShortMix (weights_of shares.now) (numbers_of a.now) (numbers_of b.now) }
{
    if !are_short(shares, a, b) {
        return None;
    }
    let numbers = mixed_words(shares, a, b);
    Some(small_lowest_terms(word_step_divisor(a, b), &numbers))
}

/// Both ends fit 32 bits, and so do their shares together.
#[inline(always)]
fn are_short(shares: &Shares, a: &Words, b: &Words) -> bool
    requires { shares.now.outside + shares.now.inside < 2 ^ 64 }
    ensures { IsTrue result
        ↔ IsShortMix (weights_of shares.now) (numbers_of a.now) (numbers_of b.now) }
{
    shares.outside + shares.inside < LIMIT && a.are_short() && b.are_short()
}

/// The outside end times its share and the inside end times its share, together.
#[inline(always)]
fn mixed_words(shares: &Shares, a: &Words, b: &Words) -> Words
    requires { IsShortMix (weights_of shares.now) (numbers_of a.now) (numbers_of b.now) }
    ensures value { numbers_of result
        ≡ mixed_of (weights_of shares.now) (numbers_of a.now) (numbers_of b.now) }
    ensures small { IsSmall (point_of (numbers_of result)) }
{
    Words {
        x: mixed_word(shares, &a.x, &b.x),
        y: mixed_word(shares, &a.y, &b.y),
        z: mixed_word(shares, &a.z, &b.z),
        s: mixed_word(shares, &a.s, &b.s),
        w: mixed_word(shares, &a.w, &b.w),
    }
}

/// The same of one of the five numbers.
#[inline(always)]
fn mixed_word(shares: &Shares, a: &i64, b: &i64) -> i64
    requires near { shares.now.outside + shares.now.inside < 2 ^ 32 }
    requires inside { FitsSigned w32 a.now }
    requires outside { FitsSigned w32 b.now }
    ensures { result ≡ mix_of (weights_of shares.now) a.now b.now }
{
    let outside = word_product(shares.outside, b);
    let inside = word_product(shares.inside, a);
    outside + inside
}

/// A product that fits 64 bits.
#[inline(always)]
fn word_product(m: u64, n: &i64) -> i64
    requires first { m < 2 ^ 32 }
    requires second { FitsSigned w32 n.now }
    ensures { result ≡ pos m *ℤ n.now }
{
    m as i64 * *n
}
