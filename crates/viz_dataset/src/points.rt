//! Where the points of an image lie.

ghost use Rattle.std.specs.Prelude.{◌≡◌, ◌^◌, ◌≤◌, ◌<◌, pos, ◌*ℤ◌, length, slice_index_or};
ghost use Rattle.std.specs.Prelude.{unsigned_abs, IfSome};
ghost use Rattle.viz_fraction.specs.Points.{numbers, reduced};
ghost use Rattle.viz_dataset.specs.Images.{vector_of, IsPosition, IsOrigin, IsStep, IsSpacing};
ghost use Rattle.viz_dataset.specs.Images.{billion, position, placed};

use viz_column::Column;
use viz_fraction::{Point5, point};

/// So many billionths make 1.
const BILLION: i128 = 1_000_000_000;

/// The same as a machine word, whose remainders are quick.
const WORD_BILLION: i64 = 1_000_000_000;

/// The position of an index along an axis, in billionths.
pub(crate) fn coordinate(origin: &i128, spacing: &i128, index: u32) -> i128
    requires origin { IsPosition origin.now }
    requires spacing { IsStep spacing.now }
    requires index { index < 2 ^ 32 }
    ensures value { result ≡ position origin.now spacing.now index }
    ensures bound { unsigned_abs result ≤ 2 ^ 96 }
{
    *origin + *spacing * i128::from(index)
}

/// A position in units, where it is a whole number of 64 bits of billionths, and of units.
fn whole_units(position: &i128) -> Option<i64>
    ensures { IfSome result (λ units. position.now ≡ units *ℤ billion) }
{
    let billionths = i64::try_from(*position).ok()?;
    if billionths % WORD_BILLION != 0 {
        return None;
    }
    Some(billionths / WORD_BILLION)
}

/// The point of three positions and a scalar, all in billionths but the scalar.
fn point_with(x: &i128, y: &i128, z: &i128, scalar: &i128) -> Point5
    requires x { unsigned_abs x.now ≤ 2 ^ 96 }
    requires y { unsigned_abs y.now ≤ 2 ^ 96 }
    requires z { unsigned_abs z.now ≤ 2 ^ 96 }
    requires scalar { unsigned_abs scalar.now ≤ 2 ^ 64 }
    ensures { result ≡ reduced (numbers x.now y.now z.now (scalar.now *ℤ billion) billion) }
{
    // A greatest common divisor takes far longer than the remainders of a machine word.
    match (whole_units(x), whole_units(y), whole_units(z)) {
        (Some(x), Some(y), Some(z)) => whole_point(&x, &y, &z, scalar),
        _ => divided_point(x, y, z, scalar),
    }
}

/// The same where the positions are whole numbers of units.
fn whole_point(x: &i64, y: &i64, z: &i64, scalar: &i128) -> Point5
    requires scalar { unsigned_abs scalar.now ≤ 2 ^ 64 }
    ensures { result ≡ reduced (numbers (x.now *ℤ billion) (y.now *ℤ billion)
        (z.now *ℤ billion) (scalar.now *ℤ billion) billion) }
{
    match point(i128::from(*x), i128::from(*y), i128::from(*z), *scalar, 1) {
        Ok(p) => p,
        Err(_) => unreachable!(),
    }
}

/// The same of any positions.
fn divided_point(x: &i128, y: &i128, z: &i128, scalar: &i128) -> Point5
    requires x { unsigned_abs x.now ≤ 2 ^ 96 }
    requires y { unsigned_abs y.now ≤ 2 ^ 96 }
    requires z { unsigned_abs z.now ≤ 2 ^ 96 }
    requires scalar { unsigned_abs scalar.now ≤ 2 ^ 64 }
    ensures { result ≡ reduced (numbers x.now y.now z.now (scalar.now *ℤ billion) billion) }
{
    match point(*x, *y, *z, *scalar * BILLION, BILLION) {
        Ok(p) => p,
        Err(_) => unreachable!(),
    }
}

/// The point at the indices i, j, k, with a scalar.
pub(crate) fn point_of(
    origin: &[i128; 3],
    spacing: &[i128; 3],
    i: u32,
    j: u32,
    k: u32,
    scalar: &i128,
) -> Point5
    requires origin { IsOrigin (vector_of origin.now) }
    requires spacing { IsSpacing (vector_of spacing.now) }
    requires scalar { unsigned_abs scalar.now ≤ 2 ^ 64 }
    ensures { result ≡ placed (vector_of origin.now) (vector_of spacing.now) i j k scalar.now }
{
    let x = coordinate(&origin[0], &spacing[0], i);
    let y = coordinate(&origin[1], &spacing[1], j);
    let z = coordinate(&origin[2], &spacing[2], k);
    point_with(&x, &y, &z, scalar)
}

/// The number at an index, which 64 bits and a sign hold.
pub(crate) fn scalar_at(column: &Column, index: u64) -> i128
    requires { index < length column.now.items }
    ensures value { result ≡ slice_index_or column.now.items index (pos 0) }
    ensures bound { unsigned_abs result ≤ 2 ^ 64 }
{
    column.get(index)
}
