//! The points of leaves: quickly where an image's origin and spacing are whole numbers of units.

ghost use Rattle.std.specs.Prelude.{◌≡◌, ◌^◌, ◌<◌, ◌≤◌, pos, ◌+ℤ◌, ◌*ℤ◌, slice_index_or};
ghost use Rattle.std.specs.Prelude.{unsigned_abs, IfSome};
ghost use Rattle.viz_extent.specs.Extent.{count_of, Has};
ghost use Rattle.viz_extent.specs.Numbering.{index_at};
ghost use Rattle.viz_fraction.specs.Points.{numbers, reduced};
ghost use Rattle.viz_dataset.specs.Images.{vector_of, billion, placed, point_at};
ghost use Rattle.viz_meaning.specs.Tetrahedra.{point_of_leaf};
ghost use Rattle.viz_contour.specs.Steps.Units.{billions_of, AreUnits};

use viz_dataset::Image;
use viz_fraction::{Point5, SmallPoint, point, whole};

/// So many billionths make 1.
const BILLION: i128 = 1_000_000_000;

/// The origin and the spacing of an image in units, where all six numbers are whole.
#[derive(Clone, Copy)]
pub(crate) struct Units {
    origin: [i64; 3],
    spacing: [i64; 3],
}

/// The units of an image, where it has them.
pub(crate) fn units_of(image: &Image) -> Option<Units>
    ensures value { IfSome result (AreUnits image.now) }
{
    Some(Units {
        origin: whole_units(&image.origin())?,
        spacing: whole_units(&image.spacing())?,
    })
}

/// Three numbers of billionths in units, where they are whole.
fn whole_units(numbers: &[i128; 3]) -> Option<[i64; 3]>
    ensures value { IfSome result (λ units. vector_of numbers.now ≡ billions_of units) }
{
    let [x, y, z] = numbers;
    Some([whole_unit(x)?, whole_unit(y)?, whole_unit(z)?])
}

/// A number of billionths in units, where it is whole.
fn whole_unit(number: &i128) -> Option<i64>
    ensures value { IfSome result (λ units. number.now ≡ units *ℤ billion) }
{
    if *number % BILLION != 0 {
        return None;
    }
    i64::try_from(*number / BILLION).ok()
}

/// The point of a leaf.
#[inline(always)]
pub(crate) fn leaf_point(image: &Image, units: &Option<Units>, leaf: u32) -> Point5
    requires units { IfSome units.now (AreUnits image.now) }
    requires within { leaf < count_of image.now.extent }
    ensures value { result ≡ point_of_leaf image.now leaf }
    ensures scalar { unsigned_abs result.s ≤ 2 ^ 96 }
    ensures weight { unsigned_abs result.w ≤ 2 ^ 32 }
{
    let (i, j, k) = image.extent().place_of(u64::from(leaf));
    point_of(image, units, leaf, i, j, k)
}

/// The point at the indices i, j, k of a leaf.
fn point_of(image: &Image, units: &Option<Units>, leaf: u32, i: u32, j: u32, k: u32) -> Point5
    requires units { IfSome units.now (AreUnits image.now) }
    requires leaf { leaf < count_of image.now.extent }
    requires within { Has image.now.extent i j k }
    requires number { index_at image.now.extent i j k ≡ leaf }
    ensures { result ≡ point_at image.now i j k }
{
    match units {
        Some(units) => whole_point(image, units, i, j, k, &scalar_at(image, leaf)),
        None => divided_point(image, i, j, k),
    }
}

/// The point at the indices i, j, k of any image: apart, so that the other way is short.
#[inline(never)]
fn divided_point(image: &Image, i: u32, j: u32, k: u32) -> Point5
    requires { Has image.now.extent i j k }
    ensures { result ≡ point_at image.now i j k }
{
    image.point(i, j, k)
}

/// The number at a leaf.
fn scalar_at(image: &Image, leaf: u32) -> i128
    requires { leaf < count_of image.now.extent }
    ensures value { result ≡ slice_index_or image.now.values.items leaf (pos 0) }
    ensures small { unsigned_abs result ≤ 2 ^ 64 }
{
    let _extent = image.extent();
    image.column().get(u64::from(leaf))
}

/// The number at a leaf, where it fits 64 bits.
#[inline(always)]
pub(crate) fn word_at(image: &Image, leaf: u32) -> Option<i64>
    requires { leaf < count_of image.now.extent }
    ensures { IfSome result (λ n.
        n ≡ slice_index_or image.now.values.items leaf (pos 0)) }
{
    i64::try_from(scalar_at(image, leaf)).ok()
}

/// The point of a leaf with its scalar, by an image's units.
#[inline(always)]
pub(crate) fn small_leaf_point(image: &Image, units: &Units, leaf: u32, scalar: &i64) -> SmallPoint
    requires units { AreUnits image.now units.now }
    requires within { leaf < count_of image.now.extent }
    requires scalar { scalar.now ≡ slice_index_or image.now.values.items leaf (pos 0) }
    ensures value { result ≡ point_of_leaf image.now leaf }
    ensures scalar { result.s ≡ scalar.now }
    ensures weight { result.w ≡ pos 1 }
{
    let extent = image.extent();
    let (i, j, k) = extent.place_of(u64::from(leaf));
    let x = coordinate(&units.origin[0], &units.spacing[0], i);
    let y = coordinate(&units.origin[1], &units.spacing[1], j);
    let z = coordinate(&units.origin[2], &units.spacing[2], k);
    whole(x, y, z, *scalar)
}

/// The point at the indices i, j, k with a scalar, by an image's units.
fn whole_point(image: &Image, units: &Units, i: u32, j: u32, k: u32, scalar: &i128) -> Point5
    requires units { AreUnits image.now units.now }
    requires within { Has image.now.extent i j k }
    requires small { unsigned_abs scalar.now ≤ 2 ^ 64 }
    ensures { result ≡ placed image.now.origin image.now.spacing i j k scalar.now }
{
    let _extent = image.extent();
    let x = coordinate(&units.origin[0], &units.spacing[0], i);
    let y = coordinate(&units.origin[1], &units.spacing[1], j);
    let z = coordinate(&units.origin[2], &units.spacing[2], k);
    point_in_units(&x, &y, &z, scalar)
}

/// The position of an index along an axis, in units.
fn coordinate(origin: &i64, spacing: &i64, index: u32) -> i64
    requires origin { unsigned_abs origin.now ≤ 10 ^ 18 }
    requires spacing { unsigned_abs spacing.now ≤ 10 ^ 9 }
    requires index { index < 2 ^ 31 }
    ensures { result ≡ origin.now +ℤ spacing.now *ℤ pos index }
{
    *origin + *spacing * i64::from(index)
}

/// The point of three positions in units and a scalar.
fn point_in_units(x: &i64, y: &i64, z: &i64, scalar: &i128) -> Point5
    requires { unsigned_abs scalar.now ≤ 2 ^ 64 }
    ensures { result ≡ reduced (numbers x.now y.now z.now scalar.now (pos 1)) }
{
    match point(i128::from(*x), i128::from(*y), i128::from(*z), *scalar, 1) {
        Ok(p) => p,
        Err(_) => unreachable!(),
    }
}
