//! Every so many points of an image.

ghost use Rattle.std.specs.Prelude.{◌≡◌, ℕ, ◌+◌, ◌-◌, ◌*◌, ◌<◌, ◌≤◌, pos, ◌*ℤ◌, ◌++◌, length, map};
ghost use Rattle.std.specs.Prelude.{slice_index_or, IfOk, OnOk};
ghost use Rattle.viz_extent.specs.Extent.{size_x, size_y, count_of, IsOnAxis, Has};
ghost use Rattle.viz_extent.specs.Numbering.{index_at};
ghost use Rattle.viz_extent.specs.Parts.{IsPart, rate_of, IsRate, spread};
ghost use Rattle.viz_dataset.specs.Images.{vector_of, IsStep, IsSpacing};
ghost use Rattle.viz_meaning.specs.ImageFilters.{wider_steps, sample_of};
ghost use Rattle.viz_meaning.specs.WholeImages.{GivesOn};
ghost use Rattle.viz_image_ops.specs.Joined.{joined, run_of, values_on};
ghost use Rattle.viz_image_ops.specs.Steps.{AreSampled, sampled_at};

use std::alloc::{AllocError, Global};
use viz_column::{Column, Lent, Number};
use viz_dataset::Image;
use viz_extent::Extent;

/// The numbers of a sample on `out`: at the indices i, j, k the number that the input has at their
/// multiples by the rate, 1 to 1024 along each axis. The steps between points are longer by the
/// rate; they have to be steps that an image may have. The input contains `out.spread(rate)`.
pub fn sample(
    alloc: Global,
    input: &Image,
    rate: [u32; 3],
    out: &Extent,
) -> Result<Image, AllocError>
    requires rate { IsRate (rate_of rate) }
    requires within { IsPart input.now.extent (spread (rate_of rate) out.now) }
    requires steps { IsSpacing (wider_steps (rate_of rate) input.now.spacing) }
    ensures value { IfOk result (GivesOn (sample_of (rate_of rate)) input.now out.now) }
{
    let column = sampled(alloc, input.column(), &input.extent(), rate, out)?;
    let spacing = wider(&input.spacing(), rate);
    Ok(Image::new(*out, input.origin(), spacing, column))
}

/// Steps between points that are longer by a rate.
pub(crate) fn wider(spacing: &[i128; 3], rate: [u32; 3]) -> [i128; 3]
    requires rate { IsRate (rate_of rate) }
    requires steps { IsSpacing (vector_of spacing.now) }
    ensures { vector_of result ≡ wider_steps (rate_of rate) (vector_of spacing.now) }
{
    let [x, y, z] = rate;
    [
        longer(&spacing[0], x),
        longer(&spacing[1], y),
        longer(&spacing[2], z),
    ]
}

/// A step that is longer by a rate.
fn longer(step: &i128, rate: u32) -> i128
    requires step { IsStep step.now }
    requires rate { rate ≤ 1024 }
    ensures { result ≡ step.now *ℤ pos rate }
{
    *step * i128::from(rate)
}

/// The numbers of a column on the whole extent at the multiples of the points of `out`.
fn sampled(
    alloc: Global,
    column: &Column,
    whole: &Extent,
    rate: [u32; 3],
    out: &Extent,
) -> Result<Column, AllocError>
    requires count { length column.now.items ≡ count_of whole.now }
    requires rate { IsRate (rate_of rate) }
    requires within { IsPart whole.now (spread (rate_of rate) out.now) }
    ensures { IfOk result (AreSampled column.now whole.now (rate_of rate) out.now) }
{
    match column.slice() {
        Lent::I8(numbers) => sampled_column(alloc, numbers, whole, rate, out),
        Lent::U8(numbers) => sampled_column(alloc, numbers, whole, rate, out),
        Lent::I16(numbers) => sampled_column(alloc, numbers, whole, rate, out),
        Lent::U16(numbers) => sampled_column(alloc, numbers, whole, rate, out),
        Lent::I32(numbers) => sampled_column(alloc, numbers, whole, rate, out),
        Lent::U32(numbers) => sampled_column(alloc, numbers, whole, rate, out),
        Lent::I64(numbers) => sampled_column(alloc, numbers, whole, rate, out),
        Lent::U64(numbers) => sampled_column(alloc, numbers, whole, rate, out),
    }
}

/// The same of numbers of a type.
fn sampled_column<T: Number>(
    alloc: Global,
    numbers: &[T],
    whole: &Extent,
    rate: [u32; 3],
    out: &Extent,
) -> Result<Column, AllocError>
    requires count { length (map T.value numbers.now) ≡ count_of whole.now }
    requires rate { IsRate (rate_of rate) }
    requires within { IsPart whole.now (spread (rate_of rate) out.now) }
    ensures { IfOk result (AreSampled (record { kind = T.kind; items = map T.value numbers.now })
        whole.now (rate_of rate) out.now) }
{
    let [_, _, _, _, z0, z1] = out.bounds();
    let mut kept = Vec::with_capacity(alloc, out.count() as usize)?;
    for k in z0..z1 + 1 {
        push_plane(&mut kept, numbers, whole, rate, out, k)?;
    }
    Ok(Column::of(kept))
}

/// Adds the numbers of a plane.
fn push_plane<T: Number>(
    kept: &mut Vec<T>,
    numbers: &[T],
    whole: &Extent,
    rate: [u32; 3],
    out: &Extent,
    k: u32,
) -> Result<(), AllocError>
    requires count { length (map T.value numbers.now) ≡ count_of whole.now }
    requires rate { IsRate (rate_of rate) }
    requires within { IsPart whole.now (spread (rate_of rate) out.now) }
    requires z { IsOnAxis out.now.z0 out.now.z1 k }
    ensures { OnOk result (map T.value kept.new.items ≡ map T.value kept.old.items
        ++ joined (λ j. run_of (λ i. sampled_at (map T.value numbers.now) whole.now (rate_of rate)
        i j k) out.now.x0 (size_x out.now)) out.now.y0 (size_y out.now)) }
{
    let [_, _, y0, y1, _, _] = out.bounds();
    for j in y0..y1 + 1 {
        push_row(kept, numbers, whole, rate, out, j, k)?;
    }
    Ok(())
}

/// Adds the numbers of a row.
fn push_row<T: Number>(
    kept: &mut Vec<T>,
    numbers: &[T],
    whole: &Extent,
    rate: [u32; 3],
    out: &Extent,
    j: u32,
    k: u32,
) -> Result<(), AllocError>
    requires count { length (map T.value numbers.now) ≡ count_of whole.now }
    requires rate { IsRate (rate_of rate) }
    requires within { IsPart whole.now (spread (rate_of rate) out.now) }
    requires y { IsOnAxis out.now.y0 out.now.y1 j }
    requires z { IsOnAxis out.now.z0 out.now.z1 k }
    ensures { OnOk result (map T.value kept.new.items ≡ map T.value kept.old.items
        ++ run_of (λ i. sampled_at (map T.value numbers.now) whole.now (rate_of rate) i j k)
        out.now.x0 (size_x out.now)) }
{
    let [x0, x1, _, _, _, _] = out.bounds();
    let start = index_of_multiple(whole, rate, x0, j, k) as usize;
    push_every(
        kept,
        numbers,
        start,
        rate[0] as usize,
        (x1 - x0) as usize + 1,
    )
}

/// The number of the point at the multiples of three indices.
fn index_of_multiple(whole: &Extent, rate: [u32; 3], i: u32, j: u32, k: u32) -> u64
    requires { Has whole.now (i * (rate_of rate).x) (j * (rate_of rate).y) (k * (rate_of rate).z) }
    ensures value { result ≡ index_at whole.now (i * (rate_of rate).x) (j * (rate_of rate).y)
        (k * (rate_of rate).z) }
    ensures below { result < count_of whole.now }
{
    // What the extent keeps by itself.
    let _bounds = whole.bounds();
    let [x, y, z] = rate;
    whole.index_of(i * x, j * y, k * z)
}

/// Adds so many numbers, from an index on, one at every step.
fn push_every<T: Number>(
    kept: &mut Vec<T>,
    numbers: &[T],
    start: usize,
    step: usize,
    count: usize,
) -> Result<(), AllocError>
    requires within { (m : ℕ) → m < count → start + m * step < length numbers.now }
    ensures { OnOk result (map T.value kept.new.items ≡ map T.value kept.old.items
        ++ run_of (λ m. slice_index_or (map T.value numbers.now) (start + m * step) (pos 0))
        0 count) }
{
    for m in 0..count {
        kept.push(numbers[start + m * step])?;
    }
    Ok(())
}
