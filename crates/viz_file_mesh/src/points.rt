//! The points of a file, each with its scalar.

ghost use Rattle.std.specs.Prelude.{◌≡◌, ◌<◌, ◌≤◌, ◌^◌, ◌*◌, ◌+◌, ◌*ℤ◌, pos, length, map};
ghost use Rattle.std.specs.Prelude.{slice_index_or, unsigned_abs, IfOk, IfSome};
ghost use Rattle.viz_fraction.specs.Points.{numbers, reduced};
ghost use Rattle.viz_sheet.specs.Arrays.{points_in};
ghost use Rattle.viz_file_mesh.specs.FileMesh.{ArePoints, scalar_at, file_points};
ghost use Rattle.viz_file_mesh.specs.Steps.Placed.{placed, all_placed};

use std::alloc::{AllocError, Global};
use viz_column::{Column, Lent, Number};
use viz_fraction::{Point5, SmallPoint, point, small};
use viz_mesh_read::FilePoints;
use viz_sheet::Places;

/// The powers of ten from 10^0 to 10^9.
const POWERS: [u32; 10] = [
    1,
    10,
    100,
    1_000,
    10_000,
    100_000,
    1_000_000,
    10_000_000,
    100_000_000,
    1_000_000_000,
];

/// A power of ten.
fn power(unit: u8) -> u32
    requires { unit ≤ 9 }
    ensures value { result ≡ 10 ^ unit }
    ensures some { 1 ≤ result }
    ensures most { result ≤ 1000000000 }
{
    POWERS[unit as usize]
}

/// A coordinate.
fn coordinate<T: Number>(numbers: &[T], i: u64) -> i128
    requires { i < length numbers.now }
    ensures value { result ≡ slice_index_or (map T.value numbers.now) i (pos 0) }
    ensures bound { unsigned_abs result ≤ 2 ^ 64 }
{
    numbers[i as usize].whole()
}

/// The scalar of a point.
fn scalar_at(picked: &Option<Column>, i: u64) -> i128
    requires { IfSome picked.now (λ n. i < length n.items) }
    ensures value { result ≡ scalar_at picked.now i }
    ensures bound { unsigned_abs result ≤ 2 ^ 64 }
{
    match picked {
        Some(column) => column.get(i),
        None => 0,
    }
}

/// A scalar, in units of which so many make 1.
fn scaled(scalar: &i128, scale: u32) -> i128
    requires scalar { unsigned_abs scalar.now ≤ 2 ^ 64 }
    ensures value { result ≡ scalar.now *ℤ pos scale }
    ensures bound { unsigned_abs result ≤ 2 ^ 96 }
{
    *scalar * i128::from(scale)
}

/// The point of three coordinates and a scaled scalar, in units of which so many make 1.
fn scaled_point(x: &i128, y: &i128, z: &i128, scalar: &i128, scale: u32) -> Point5
    requires x { unsigned_abs x.now ≤ 2 ^ 64 }
    requires y { unsigned_abs y.now ≤ 2 ^ 64 }
    requires z { unsigned_abs z.now ≤ 2 ^ 64 }
    requires scalar { unsigned_abs scalar.now ≤ 2 ^ 96 }
    requires scale { 1 ≤ scale }
    ensures { result ≡ reduced (numbers x.now y.now z.now scalar.now (pos scale)) }
{
    match point(*x, *y, *z, *scalar, i128::from(scale)) {
        Ok(p) => p,
        Err(_) => unreachable!(),
    }
}

/// The point of an index.
fn point_at<T: Number>(numbers: &[T], picked: &Option<Column>, scale: u32, i: u64) -> Point5
    requires within { 3 * i + 2 < length numbers.now }
    requires scalar { IfSome picked.now (λ n. i < length n.items) }
    requires scale { 1 ≤ scale }
    ensures { result ≡ placed scale (map T.value numbers.now) picked.now i }
{
    let x = coordinate(numbers, 3 * i);
    let y = coordinate(numbers, 3 * i + 1);
    let z = coordinate(numbers, 3 * i + 2);
    let scalar = scaled(&scalar_at(picked, i), scale);
    scaled_point(&x, &y, &z, &scalar, scale)
}

/// All points in 64 bits, where they fit.
fn small_points<T: Number>(
    alloc: Global,
    count: u64,
    numbers: &[T],
    picked: &Option<Column>,
    scale: u32,
) -> Result<Option<Vec<SmallPoint>>, AllocError>
    requires coordinates { length numbers.now ≡ 3 * count }
    requires scalars { IfSome picked.now (λ n. length n.items ≡ count) }
    requires scale { 1 ≤ scale }
    ensures { IfOk result (λ points. IfSome points (λ v.
        v.items ≡ all_placed scale count (map T.value numbers.now) picked.now)) }
{
    let mut points = Vec::with_capacity(alloc, count as usize)?;
    for i in 0..count {
        let Some(p) = small(&point_at(numbers, picked, scale, i)) else {
            return Ok(None);
        };
        points.push(p)?;
    }
    Ok(Some(points))
}

/// All points in 128 bits.
fn wide_points<T: Number>(
    alloc: Global,
    count: u64,
    numbers: &[T],
    picked: &Option<Column>,
    scale: u32,
) -> Result<Vec<Point5>, AllocError>
    requires coordinates { length numbers.now ≡ 3 * count }
    requires scalars { IfSome picked.now (λ n. length n.items ≡ count) }
    requires scale { 1 ≤ scale }
    ensures { IfOk result (λ v.
        v.items ≡ all_placed scale count (map T.value numbers.now) picked.now) }
{
    let mut points = Vec::with_capacity(alloc, count as usize)?;
    for i in 0..count {
        points.push(point_at(numbers, picked, scale, i))?;
    }
    Ok(points)
}

/// All points, in 64 bits where they fit.
fn places_of<T: Number>(
    alloc: Global,
    count: u64,
    numbers: &[T],
    picked: &Option<Column>,
    scale: u32,
) -> Result<Places, AllocError>
    requires coordinates { length (map T.value numbers.now) ≡ 3 * count }
    requires scalars { IfSome picked.now (λ n. length n.items ≡ count) }
    requires scale { 1 ≤ scale }
    ensures { IfOk result (λ p.
        points_in p ≡ all_placed scale count (map T.value numbers.now) picked.now) }
{
    if let Some(points) = small_points(alloc, count, numbers, picked, scale)? {
        return Ok(Places::Small(points));
    }
    Ok(Places::Wide(wide_points(alloc, count, numbers, picked, scale)?))
}

/// The same, of whatever type the coordinates are.
fn all_places(
    alloc: Global,
    count: u64,
    coordinates: &Column,
    picked: &Option<Column>,
    scale: u32,
) -> Result<Places, AllocError>
    requires coordinates { length coordinates.now.items ≡ 3 * count }
    requires scalars { IfSome picked.now (λ n. length n.items ≡ count) }
    requires scale { 1 ≤ scale }
    ensures { IfOk result (λ p.
        points_in p ≡ all_placed scale count coordinates.now.items picked.now) }
{
    match coordinates.slice() {
        Lent::I8(numbers) => places_of(alloc, count, numbers, picked, scale),
        Lent::U8(numbers) => places_of(alloc, count, numbers, picked, scale),
        Lent::I16(numbers) => places_of(alloc, count, numbers, picked, scale),
        Lent::U16(numbers) => places_of(alloc, count, numbers, picked, scale),
        Lent::I32(numbers) => places_of(alloc, count, numbers, picked, scale),
        Lent::U32(numbers) => places_of(alloc, count, numbers, picked, scale),
        Lent::I64(numbers) => places_of(alloc, count, numbers, picked, scale),
        Lent::U64(numbers) => places_of(alloc, count, numbers, picked, scale),
    }
}

/// The points of a file. Their coordinates and the picked numbers are given up.
pub(crate) fn file_places(
    alloc: Global,
    points: FilePoints,
    picked: Option<Column>,
    unit: u8,
) -> Result<Places, AllocError>
    requires unit { unit ≤ 9 }
    requires points { ArePoints points picked }
    ensures { IfOk result (λ p. points_in p ≡ file_points unit points picked) }
{
    all_places(
        alloc,
        points.count,
        &points.coordinates,
        &picked,
        power(unit),
    )
}
