//! Means over the points round each point of an image.

ghost use Rattle.std.specs.Prelude.{◌≡◌, ℕ, ◌≤◌, pos, length, map, slice_index_or, IfOk};
ghost use Rattle.viz_extent.specs.Extent.{size_of, count_of, IsExtent};
ghost use Rattle.viz_extent.specs.Parts.{IsPart, grown};
ghost use Rattle.viz_column.specs.Numbers.{AreInRange};
ghost use Rattle.viz_meaning.specs.ImageFilters.{smooth_within};
ghost use Rattle.viz_meaning.specs.WholeImages.{GivesOn};
ghost use Rattle.viz_image_ops.specs.Sums.{AreReaches, AreMeans, round_axes};

use crate::means::push_planes;
use crate::window::{Axes, Axis};
use std::alloc::{AllocError, Global};
use viz_column::{Column, Lent, Number};
use viz_dataset::Image;
use viz_extent::Extent;

/// The numbers of a box mean on `out`: at each point the mean of the numbers at all points of the
/// whole whose indices differ from its own by at most the radius along each axis, rounded down.
/// The input contains `out.grow(radius, whole)`. What it costs goes by the points of that extent,
/// which on a part grows with the radius; on the whole it hardly grows with it.
pub fn smooth(
    alloc: Global,
    input: &Image,
    radius: u32,
    whole: &Extent,
    out: &Extent,
) -> Result<Image, AllocError>
    requires whole { IsPart whole.now out.now }
    requires within { IsPart input.now.extent (grown radius whole.now out.now) }
    ensures value { IfOk result (GivesOn (smooth_within radius whole.now) input.now out.now) }
{
    let round = out.grow(radius, whole);
    if input.extent() == round {
        return smoothed(alloc, input, radius, whole, out);
    }
    let part = input.restrict(alloc, &round)?;
    smoothed(alloc, &part, radius, whole, out)
}

/// The same of an input on just the points that `out` asks for.
fn smoothed(
    alloc: Global,
    input: &Image,
    radius: u32,
    whole: &Extent,
    out: &Extent,
) -> Result<Image, AllocError>
    requires whole { IsPart whole.now out.now }
    requires same { input.now.extent ≡ grown radius whole.now out.now }
    ensures { IfOk result (GivesOn (smooth_within radius whole.now) input.now out.now) }
{
    let column = means_of(alloc, input.column(), radius, whole, out)?;
    Ok(Image::new(*out, input.origin(), input.spacing(), column))
}

/// The means of the numbers of a column, for each point of `out`.
fn means_of(
    alloc: Global,
    column: &Column,
    radius: u32,
    whole: &Extent,
    out: &Extent,
) -> Result<Column, AllocError>
    requires whole { IsPart whole.now out.now }
    requires count { length column.now.items ≡ count_of (grown radius whole.now out.now) }
    ensures { IfOk result (AreMeans radius whole.now out.now column.now) }
{
    match column.slice() {
        Lent::I8(numbers) => means_column(alloc, numbers, radius, whole, out),
        Lent::U8(numbers) => means_column(alloc, numbers, radius, whole, out),
        Lent::I16(numbers) => means_column(alloc, numbers, radius, whole, out),
        Lent::U16(numbers) => means_column(alloc, numbers, radius, whole, out),
        Lent::I32(numbers) => means_column(alloc, numbers, radius, whole, out),
        Lent::U32(numbers) => means_column(alloc, numbers, radius, whole, out),
        Lent::I64(numbers) => means_column(alloc, numbers, radius, whole, out),
        Lent::U64(numbers) => means_column(alloc, numbers, radius, whole, out),
    }
}

/// The same of numbers of a type. Beside the result there are sums for one plane and one row.
fn means_column<T: Number>(
    alloc: Global,
    numbers: &[T],
    radius: u32,
    whole: &Extent,
    out: &Extent,
) -> Result<Column, AllocError>
    requires whole { IsPart whole.now out.now }
    requires count { length (map T.value numbers.now)
        ≡ count_of (grown radius whole.now out.now) }
    requires own { AreInRange (record { kind = T.kind; items = map T.value numbers.now }) }
    ensures { IfOk result (AreMeans radius whole.now out.now
        (record { kind = T.kind; items = map T.value numbers.now })) }
{
    let axes = axes_of(radius, whole, out);
    let mut plane = zeros(alloc, axes.x.places * axes.y.places)?;
    let mut row = zeros(alloc, axes.x.places)?;
    let mut means = Vec::with_capacity(alloc, out.count() as usize)?;
    push_planes(&mut means, numbers, &mut plane, &mut row, &axes, out)?;
    Ok(Column::of(means))
}

/// The axes of the whole, and the places of the points round those of `out`.
fn axes_of(radius: u32, whole: &Extent, out: &Extent) -> Axes
    requires whole { IsPart whole.now out.now }
    ensures value { result ≡ round_axes radius whole.now out.now }
    ensures reaches { AreReaches result out.now }
    ensures valid { IsExtent out.now }
{
    let round = out.grow(radius, whole);
    // What the extents keep by themselves.
    let _count = round.count();
    let _points = out.bounds();
    let [wx0, wx1, wy0, wy1, wz0, wz1] = whole.bounds();
    let [x0, x1, y0, y1, z0, z1] = round.bounds();
    Axes {
        x: axis(radius, wx0, wx1, x0, x1),
        y: axis(radius, wy0, wy1, y0, y1),
        z: axis(radius, wz0, wz1, z0, z1),
    }
}

/// An axis of the whole, and the places from a first to a last index.
fn axis(radius: u32, lower: u32, upper: u32, first: u32, last: u32) -> Axis
    requires { first ≤ last }
    ensures { result ≡ record {
      radius = radius;
      lower = lower;
      upper = upper;
      start = first;
      places = size_of first last;
    } }
{
    Axis {
        radius,
        lower,
        upper,
        start: first,
        places: (last - first) as usize + 1,
    }
}

/// Sums of nothing.
fn zeros(alloc: Global, count: usize) -> Result<Vec<i128>, AllocError>
    ensures long { IfOk result (λ v. length v.items ≡ count) }
    ensures zeros { IfOk result (λ v. (p : ℕ) → slice_index_or v.items p (pos 0) ≡ pos 0) }
{
    let mut sums = Vec::new(alloc);
    sums.resize(count, 0)?;
    Ok(sums)
}
