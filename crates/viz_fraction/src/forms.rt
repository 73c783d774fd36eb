//! Linear forms of points.
ghost use Rattle.std.specs.Prelude.{◌≡◌, ◌^◌, ◌≤◌, pos, ◌+ℤ◌, ◌-ℤ◌, ◌≤ℤ◌, ◌↔◌, IfOk, IsOk, IsTrue};
ghost use Rattle.std.specs.Prelude.{unsigned_abs};
ghost use Rattle.viz_fraction.specs.Points.{IsNarrowPoint};
ghost use Rattle.viz_fraction.specs.Numbers.{point_of};
ghost use Rattle.viz_fraction.specs.Sums.{coefficients_of, terms_of, total_of, IsNarrowSumAt};
ghost use Rattle.viz_fraction.specs.Forms.{value_of, IsNarrowValue};

use crate::numbers::Numbers;
use crate::points::{Point5, TooWide};
use crate::products::{narrow, product};

/// The linear form a x + b y + c z + q s - r w of a point.
///
/// A contour at v is the form (0, 0, 0, 1, v); a plane a, b, c, r is (a, b, c, 0, r). A point is
/// inside where the form is at least 0.
#[derive(Clone, Copy, PartialEq, Eq, Debug)]
pub struct Form {
    pub a: i64,
    pub b: i64,
    pub c: i64,
    pub q: i64,
    pub r: i64,
}

/// The value of a form at a point, times the point's weight: a x + b y + c z + q s - r w.
///
/// # Errors
///
/// `TooWide` exactly where one of the five terms or their sum is wide.
pub fn value(form: &Form, p: &Point5) -> Result<i128, TooWide>
    ensures value { IfOk result (λ v. v ≡ value_of form.now p.now) }
    ensures succeeds { IsOk result ↔ IsNarrowValue form.now p.now }
{
    sum_of_terms(&coefficients(form), &p.numbers())
}

/// A point is inside where the form's value there is at least 0.
pub fn is_inside(value: i128) -> bool
    ensures value { IsTrue result ↔ (pos 0 ≤ℤ value) }
{
    value >= 0
}

/// The coefficients of a form, where x, y, z, s and w stand for a, b, c, q and r.
fn coefficients(form: &Form) -> Numbers
    ensures { result ≡ coefficients_of form.now }
{
    Numbers {
        x: i128::from(form.a),
        y: i128::from(form.b),
        z: i128::from(form.c),
        s: i128::from(form.q),
        w: i128::from(form.r),
    }
}

/// The value by coefficients and numbers.
fn sum_of_terms(k: &Numbers, p: &Numbers) -> Result<i128, TooWide>
    ensures value { IfOk result (λ v. v ≡ total_of (terms_of k.now p.now)) }
    ensures succeeds { IsOk result ↔ IsNarrowSumAt k.now p.now }
{
    let terms = terms(k, p)?;
    narrow(&total(&terms))
}

/// The five products.
fn terms(k: &Numbers, p: &Numbers) -> Result<Numbers, TooWide>
    ensures value { IfOk result (λ t. t ≡ terms_of k.now p.now) }
    ensures succeeds { IsOk result ↔ IsNarrowPoint (point_of (terms_of k.now p.now)) }
{
    let x = product(&k.x, &p.x)?;
    let y = product(&k.y, &p.y)?;
    let z = product(&k.z, &p.z)?;
    let s = product(&k.s, &p.s)?;
    let w = product(&k.w, &p.w)?;
    Ok(Numbers { x, y, z, s, w })
}

/// The sum of four numbers without the fifth.
fn total(t: &Numbers) -> i128
    requires { IsNarrowPoint (point_of t.now) }
    ensures { result ≡ total_of t.now }
{
    along_axes(t) + above_level(t)
}

/// The sum of the first three.
fn along_axes(t: &Numbers) -> i128
    requires { IsNarrowPoint (point_of t.now) }
    ensures value { result ≡ t.now.x +ℤ t.now.y +ℤ t.now.z }
    ensures bound { unsigned_abs result ≤ 2 ^ 122 }
{
    t.x + t.y + t.z
}

/// The fourth without the fifth.
fn above_level(t: &Numbers) -> i128
    requires { IsNarrowPoint (point_of t.now) }
    ensures value { result ≡ t.now.s -ℤ t.now.w }
    ensures bound { unsigned_abs result ≤ 2 ^ 121 }
{
    t.s - t.w
}
