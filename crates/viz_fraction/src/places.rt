//! The position of a point without its scalar, and the scalar without the position.
ghost use Rattle.std.specs.Prelude.{◌≡◌, ◌^◌, ◌≤◌, pos, ◌*ℤ◌, ◌<ℤ◌, ◌≤ℤ◌, ◌↔◌, IsTrue, FitsSigned};
ghost use Rattle.std.specs.Prelude.{unsigned_abs};
ghost use Rattle.std.specs.Int.{w64};
ghost use Rattle.viz_fraction.specs.Points.{IsNarrow, IsPoint, numbers, reduced};
ghost use Rattle.viz_fraction.specs.Numbers.{point_of};
ghost use Rattle.viz_fraction.specs.Places.{place_of, IsWithin};

use crate::decimals::floor;
use crate::numbers::{Numbers, is_word};
use crate::points::{Point5, lowest_terms};

/// The position of a point in lowest terms, whatever its scalar: x, y, z and w divided by their
/// greatest common divisor. Points at one position have equal places.
pub fn place(p: &Point5) -> [i128; 4]
    ensures value { result ≡ place_of p.now }
{
    let bare = without_scalar(&p.numbers());
    [bare.x(), bare.y(), bare.z(), bare.w()]
}

/// The point at the same position with the scalar 0.
fn without_scalar(n: &Numbers) -> Point5
    requires { IsPoint (point_of n.now) }
    ensures { result ≡ reduced (numbers n.now.x n.now.y n.now.z (pos 0) n.now.w) }
{
    lowest_terms(
        0,
        &Numbers {
            x: n.x,
            y: n.y,
            z: n.z,
            s: 0,
            w: n.w,
        },
    )
}

/// The scalar of a point is at least `lo` and at most `hi`.
pub fn within(p: &Point5, lo: i64, hi: i64) -> bool
    ensures value { IsTrue result ↔ IsWithin p.now lo hi }
{
    is_within(&p.numbers(), &i128::from(lo), &i128::from(hi))
}

/// The same of numbers that are lent.
fn is_within(n: &Numbers, lo: &i128, hi: &i128) -> bool
    requires valid { IsPoint (point_of n.now) }
    requires word_lo { FitsSigned w64 lo.now }
    requires word_hi { FitsSigned w64 hi.now }
    ensures { IsTrue result ↔ IsWithin (point_of n.now) lo.now hi.now }
{
    is_at_least(&n.s, &n.w, lo) && is_at_most(&n.s, &n.w, hi)
}

/// The fraction n / w is at most a whole: its negative is at least that of the whole.
fn is_at_most(n: &i128, w: &i128, whole: &i128) -> bool
    requires positive { pos 0 <ℤ w.now }
    requires narrow { IsNarrow n.now }
    requires word { FitsSigned w64 whole.now }
    ensures { IsTrue result ↔ (n.now ≤ℤ (whole.now *ℤ w.now)) }
{
    is_at_least(&-*n, w, &-*whole)
}

/// The fraction n / w is at least a whole, by a product where it fits 128 bits, else by the floor.
fn is_at_least(n: &i128, w: &i128, whole: &i128) -> bool
    requires positive { pos 0 <ℤ w.now }
    requires narrow { IsNarrow n.now }
    requires word { unsigned_abs whole.now ≤ 2 ^ 63 }
    ensures { IsTrue result ↔ ((whole.now *ℤ w.now) ≤ℤ n.now) }
{
    if is_word(w) {
        return is_in_order(&(*whole * *w), n);
    }
    is_in_order(whole, &floor(n, w))
}

/// The first number is at most the second.
fn is_in_order(m: &i128, n: &i128) -> bool
    ensures { IsTrue result ↔ (m.now ≤ℤ n.now) }
{
    *m <= *n
}
