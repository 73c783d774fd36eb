//! Exact points: five whole numbers in lowest terms.
ghost use Rattle.std.specs.Prelude.{◌≡◌, ℤ, pos, ◌<ℤ◌, ◌↔◌, IfOk, IsOk};
ghost use Prim.Native.Nat.{◌∣◌};
ghost use Rattle.viz_fraction.specs.Points.{Point, IsNarrow, IsNarrowPoint, IsPoint, numbers};
ghost use Rattle.viz_fraction.specs.Points.{divisor_of, reduced};
ghost use Rattle.viz_fraction.specs.Numbers.{point_of};

use crate::divisors::with_magnitude;
use crate::numbers::{Numbers, magnitude, quotient};
use std::marker::Model;
use thiserror::Error;

/// A number that a result is made of is wide: its magnitude exceeds 2^120.
#[derive(Clone, Copy, PartialEq, Eq, Debug, Error)]
#[error("a number is too wide")]
pub struct TooWide;

/// The place (x / w, y / w, z / w) with the scalar s / w.
///
/// The weight w is positive, the five numbers have no common divisor but 1, and none is wide. So
/// equal places with equal scalars are equal points. Contracts see the five numbers.
#[derive(Clone, Copy, PartialEq, Eq, Debug)]
pub struct Point5 {
    x: i128,
    y: i128,
    z: i128,
    s: i128,
    w: i128,
}

impl Model for Point5 {
    ghost Value = { Point };

    ghost view = { λ p. record {
      x = p.x;
      y = p.y;
      z = p.z;
      s = p.s;
      w = p.w;
    } };

    ghost invariant = { λ p. IsPoint (record {
      x = p.x;
      y = p.y;
      z = p.z;
      s = p.s;
      w = p.w;
    }) };

    ghost inverse = { λ p. record {
      x = p.x;
      y = p.y;
      z = p.z;
      s = p.s;
      w = p.w;
    } };
}

impl Point5 {
    /// The numerator of the place along x.
    pub fn x(&self) -> i128
        ensures value { result ≡ self.now.x }
        ensures narrow { IsNarrow result }
    {
        self.x
    }

    /// The numerator of the place along y.
    pub fn y(&self) -> i128
        ensures value { result ≡ self.now.y }
        ensures narrow { IsNarrow result }
    {
        self.y
    }

    /// The numerator of the place along z.
    pub fn z(&self) -> i128
        ensures value { result ≡ self.now.z }
        ensures narrow { IsNarrow result }
    {
        self.z
    }

    /// The numerator of the scalar.
    pub fn s(&self) -> i128
        ensures value { result ≡ self.now.s }
        ensures narrow { IsNarrow result }
    {
        self.s
    }

    /// The denominator of all four.
    pub fn w(&self) -> i128
        ensures value { result ≡ self.now.w }
        ensures positive { pos 0 <ℤ result }
        ensures narrow { IsNarrow result }
    {
        self.w
    }

    /// All five.
    pub(crate) fn numbers(&self) -> Numbers
        ensures value { point_of result ≡ self.now }
        ensures valid { IsPoint self.now }
    {
        Numbers {
            x: self.x,
            y: self.y,
            z: self.z,
            s: self.s,
            w: self.w,
        }
    }
}

/// The point of five numbers.
///
/// # Errors
///
/// `TooWide` exactly where one of the five is wide before they are brought to lowest terms.
pub fn point(x: i128, y: i128, z: i128, s: i128, w: i128) -> Result<Point5, TooWide>
    requires { pos 0 <ℤ w }
    ensures value { IfOk result (λ p. p ≡ reduced (numbers x y z s w)) }
    ensures succeeds { IsOk result ↔ IsNarrowPoint (numbers x y z s w) }
{
    narrow_point(&Numbers { x, y, z, s, w })
}

/// The same of the five numbers together.
fn narrow_point(n: &Numbers) -> Result<Point5, TooWide>
    requires { pos 0 <ℤ n.now.w }
    ensures value { IfOk result (λ p. p ≡ reduced (point_of n.now)) }
    ensures succeeds { IsOk result ↔ IsNarrowPoint (point_of n.now) }
{
    if n.is_narrow() {
        Ok(lowest_terms(0, n))
    } else {
        Err(TooWide)
    }
}

/// The point of five numbers, of whose greatest common divisor `start` is a multiple; 0 is one.
#[inline(always)]
pub(crate) fn lowest_terms(start: u128, n: &Numbers) -> Point5
    requires positive { pos 0 <ℤ n.now.w }
    requires narrow { IsNarrowPoint (point_of n.now) }
    requires multiple { divisor_of (point_of n.now) ∣ start }
    ensures { result ≡ reduced (point_of n.now) }
{
    let divisor = divisor_of_five(start, n);
    if divisor == 1 {
        return point_as_it_stands(n);
    }
    divided(n, &(divisor as i128))
}

/// The greatest common divisor of five numbers, of which `start` is a multiple.
#[inline(always)]
fn divisor_of_five(start: u128, n: &Numbers) -> u128
    requires { divisor_of (point_of n.now) ∣ start }
    ensures { result ≡ divisor_of (point_of n.now) }
{
    let with_w = with_magnitude(start, magnitude(&n.w));
    let with_x = with_magnitude(with_w, magnitude(&n.x));
    let with_y = with_magnitude(with_x, magnitude(&n.y));
    let with_z = with_magnitude(with_y, magnitude(&n.z));
    with_magnitude(with_z, magnitude(&n.s))
}

/// Five numbers divided by their greatest common divisor.
fn divided(n: &Numbers, divisor: &i128) -> Point5
    requires positive { pos 0 <ℤ n.now.w }
    requires narrow { IsNarrowPoint (point_of n.now) }
    requires greatest { divisor.now ≡ pos (divisor_of (point_of n.now)) }
    requires above { pos 0 <ℤ divisor.now }
    ensures { result ≡ reduced (point_of n.now) }
{
    Point5 {
        x: quotient(&n.x, divisor),
        y: quotient(&n.y, divisor),
        z: quotient(&n.z, divisor),
        s: quotient(&n.s, divisor),
        w: quotient(&n.w, divisor),
    }
}

/// Five numbers that are a point as they stand.
#[inline(always)]
pub(crate) fn point_as_it_stands(n: &Numbers) -> Point5
    requires { IsPoint (point_of n.now) }
    ensures { result ≡ point_of n.now }
{
    Point5 {
        x: n.x,
        y: n.y,
        z: n.z,
        s: n.s,
        w: n.w,
    }
}
