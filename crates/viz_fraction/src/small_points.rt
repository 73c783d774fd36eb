//! Points whose five numbers fit 64 bits, in half the room.
ghost use Rattle.std.specs.Prelude.{◌≡◌, pos, ◌<ℤ◌, ◌↔◌, IfSome, IsSome, IsTrue, int_div};
ghost use Prim.Native.Nat.{◌∣◌};
ghost use Rattle.viz_fraction.specs.Points.{Point, IsPoint, numbers, divisor_of, reduced};
ghost use Rattle.viz_fraction.specs.Numbers.{point_of};
ghost use Rattle.viz_fraction.specs.Small.{IsSmall};
ghost use Rattle.viz_fraction.specs.Words.{numbers_of};

use crate::numbers::{Numbers, is_word};
use crate::points::{Point5, point_as_it_stands};
use crate::words::{Words, word_divisor_of_five};
use std::marker::Model;

/// A point whose five numbers fit signed 64 bits, for long lists of points.
///
/// It takes 40 bytes where a `Point5` takes 80. Contracts see the five numbers, as they see those
/// of a `Point5`.
#[derive(Clone, Copy, PartialEq, Eq, Debug)]
pub struct SmallPoint {
    x: i64,
    y: i64,
    z: i64,
    s: i64,
    w: i64,
}

impl Model for SmallPoint {
    ghost Value = { Point };

    ghost view = { λ p. record {
      x = p.x;
      y = p.y;
      z = p.z;
      s = p.s;
      w = p.w;
    } };

    ghost invariant = { λ p. IsPoint (record {
      x = p.x;
      y = p.y;
      z = p.z;
      s = p.s;
      w = p.w;
    }) };

    ghost inverse = { λ p. record {
      x = p.x;
      y = p.y;
      z = p.z;
      s = p.s;
      w = p.w;
    } };
}

impl SmallPoint {
    /// The same point, in the type that points are reckoned with.
    #[inline]
    pub fn wide(&self) -> Point5
        ensures value { result ≡ self.now }
    {
        point_as_it_stands(&self.numbers())
    }

    /// All five.
    #[inline]
    pub(crate) fn numbers(&self) -> Numbers
        ensures value { point_of result ≡ self.now }
        ensures valid { IsPoint self.now }
    {
        Numbers {
            x: i128::from(self.x),
            y: i128::from(self.y),
            z: i128::from(self.z),
            s: i128::from(self.s),
            w: i128::from(self.w),
        }
    }

    /// All five, in 64 bits.
    #[inline(always)]
    pub(crate) fn words(&self) -> Words
        ensures value { point_of (numbers_of result) ≡ self.now }
        ensures valid { IsPoint self.now }
    {
        Words {
            x: self.x,
            y: self.y,
            z: self.z,
            s: self.s,
            w: self.w,
        }
    }
}

/// The point of whole numbers, whose weight is 1.
#[inline(always)]
pub fn whole(x: i64, y: i64, z: i64, s: i64) -> SmallPoint
    ensures value { result ≡ numbers x y z s (pos 1) }
    ensures valid { IsPoint result }
{
    SmallPoint { x, y, z, s, w: 1 }
}

/// The same point in half the room, where its numbers fit 64 bits.
#[inline]
pub fn small(p: &Point5) -> Option<SmallPoint>
    ensures value { IfSome result (λ q. q ≡ p.now) }
    ensures some { IsSome result ↔ IsSmall p.now }
{
    let numbers = p.numbers();
    if !is_small(&numbers) {
        return None;
    }
    Some(narrowed(&numbers))
}

/// All five numbers fit 64 bits.
fn is_small(n: &Numbers) -> bool
    ensures { IsTrue result ↔ IsSmall (point_of n.now) }
{
    is_word(&n.x) && is_word(&n.y) && is_word(&n.z) && is_word(&n.s) && is_word(&n.w)
}

/// Five numbers of 64 bits that are a point as they stand.
pub(crate) fn narrowed(n: &Numbers) -> SmallPoint
    requires small { IsSmall (point_of n.now) }
    requires valid { IsPoint (point_of n.now) }
    ensures { result ≡ point_of n.now }
{
    SmallPoint {
        x: n.x as i64,
        y: n.y as i64,
        z: n.z as i64,
        s: n.s as i64,
        w: n.w as i64,
    }
}

/// The point of five small numbers, of whose greatest common divisor `start` is a multiple; 0 is
/// one.
#[inline(always)]
pub(crate) fn small_lowest_terms(start: u64, n: &Words) -> SmallPoint
    requires positive { pos 0 <ℤ n.now.w }
    requires small { IsSmall (point_of (numbers_of n.now)) }
    requires multiple { divisor_of (point_of (numbers_of n.now)) ∣ start }
    ensures { result ≡ reduced (point_of (numbers_of n.now)) }
{
    if start == 1 {
        return small_as_it_stands(n);
    }
    let divisor = word_divisor_of_five(start, n);
    small_divided(n, &(divisor as i64))
}

/// Five small numbers divided by their greatest common divisor.
fn small_divided(n: &Words, divisor: &i64) -> SmallPoint
    requires positive { pos 0 <ℤ n.now.w }
    requires small { IsSmall (point_of (numbers_of n.now)) }
    requires greatest { divisor.now ≡ pos (divisor_of (point_of (numbers_of n.now))) }
    requires above { pos 0 <ℤ divisor.now }
    ensures { result ≡ reduced (point_of (numbers_of n.now)) }
{
    if *divisor == 1 {
        return small_as_it_stands(n);
    }
    SmallPoint {
        x: small_quotient(&n.x, divisor),
        y: small_quotient(&n.y, divisor),
        z: small_quotient(&n.z, divisor),
        s: small_quotient(&n.s, divisor),
        w: small_quotient(&n.w, divisor),
    }
}

/// A number divided by one above 0, toward 0.
fn small_quotient(n: &i64, divisor: &i64) -> i64
    requires { pos 0 <ℤ divisor.now }
    ensures { result ≡ int_div n.now divisor.now }
{
    *n / *divisor
}

/// Five small numbers that are a point as they stand.
#[inline(always)]
fn small_as_it_stands(n: &Words) -> SmallPoint
    requires { IsPoint (point_of (numbers_of n.now)) }
    ensures { result ≡ point_of (numbers_of n.now) }
{
    SmallPoint {
        x: n.x,
        y: n.y,
        z: n.z,
        s: n.s,
        w: n.w,
    }
}
