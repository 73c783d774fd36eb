//! Arithmetic of two images.

ghost use Rattle.std.specs.Prelude.{◌≡◌, ℕ, ◌+◌, ◌^◌, ◌<◌, ◌≤◌, ◌++◌, pos, length, map, take};
ghost use Rattle.std.specs.Prelude.{drop, slice_index_or, unsigned_abs, IfOk, IsTrue, OnOk};
ghost use Rattle.viz_extent.specs.Extent.{size_x, size_y, IsOnAxis, Has, count_of};
ghost use Rattle.viz_extent.specs.Numbering.{index_at};
ghost use Rattle.viz_extent.specs.Parts.{IsPart};
ghost use Rattle.viz_meaning.specs.ImageFilters.{reckoned, clamped, arith_of};
ghost use Rattle.viz_meaning.specs.WholeImages.{GivesOnBoth};
ghost use Rattle.viz_image_ops.specs.Joined.{joined, run_of, values_on};
ghost use Rattle.viz_image_ops.specs.Reckoned.{AreOn, AreReckoned, IsSigned, reckoned_at};

use crate::reckoning::{Difference, Greater, Lesser, Reckoning, Sum};
use std::alloc::{AllocError, Global};
use viz_column::{Column, Kind8, Lent, Number};
use viz_dataset::Image;
use viz_extent::Extent;
use viz_meaning::Op;

/// The extents of two images, and the part of both that is reckoned.
#[derive(Drop)]
pub(crate) struct Grids {
    pub(crate) first: Extent,
    pub(crate) second: Extent,
    pub(crate) out: Extent,
}

/// The sum, the difference, the lesser or the greater of the numbers of two images at each point
/// of `out`, which both contain: of 64 bits with a sign, and the nearer end of these where they
/// don't hold it. The positions are those of the first image.
pub fn arith(alloc: Global, a: &Image, b: &Image, op: Op, out: &Extent) -> Result<Image, AllocError>
    requires first { IsPart a.now.extent out.now }
    requires second { IsPart b.now.extent out.now }
    ensures value { IfOk result (GivesOnBoth (arith_of op) a.now b.now out.now) }
{
    let grids = Grids {
        first: a.extent(),
        second: b.extent(),
        out: *out,
    };
    let column = reckon(alloc, a.column(), b.column(), op, &grids)?;
    Ok(Image::new(*out, a.origin(), a.spacing(), column))
}

/// What is reckoned of the numbers of two columns, for each point of a part.
fn reckon(
    alloc: Global,
    a: &Column,
    b: &Column,
    op: Op,
    grids: &Grids,
) -> Result<Column, AllocError>
    requires on { AreOn grids.now a.now.items b.now.items }
    ensures { IfOk result (AreReckoned op grids.now a.now.items b.now.items) }
{
    match a.slice() {
        Lent::I8(numbers) => reckon_with(alloc, numbers, b, op, grids),
        Lent::U8(numbers) => reckon_with(alloc, numbers, b, op, grids),
        Lent::I16(numbers) => reckon_with(alloc, numbers, b, op, grids),
        Lent::U16(numbers) => reckon_with(alloc, numbers, b, op, grids),
        Lent::I32(numbers) => reckon_with(alloc, numbers, b, op, grids),
        Lent::U32(numbers) => reckon_with(alloc, numbers, b, op, grids),
        Lent::I64(numbers) => reckon_with(alloc, numbers, b, op, grids),
        Lent::U64(numbers) => reckon_with(alloc, numbers, b, op, grids),
    }
}

/// The same where the first numbers are of a type.
fn reckon_with<T: Number>(
    alloc: Global,
    xs: &[T],
    b: &Column,
    op: Op,
    grids: &Grids,
) -> Result<Column, AllocError>
    requires on { AreOn grids.now (map T.value xs.now) b.now.items }
    ensures { IfOk result (AreReckoned op grids.now (map T.value xs.now) b.now.items) }
{
    match b.slice() {
        Lent::I8(ys) => reckon_all(alloc, xs, ys, op, grids),
        Lent::U8(ys) => reckon_all(alloc, xs, ys, op, grids),
        Lent::I16(ys) => reckon_all(alloc, xs, ys, op, grids),
        Lent::U16(ys) => reckon_all(alloc, xs, ys, op, grids),
        Lent::I32(ys) => reckon_all(alloc, xs, ys, op, grids),
        Lent::U32(ys) => reckon_all(alloc, xs, ys, op, grids),
        Lent::I64(ys) => reckon_all(alloc, xs, ys, op, grids),
        Lent::U64(ys) => reckon_all(alloc, xs, ys, op, grids),
    }
}

/// The same where both are of a type.
fn reckon_all<T: Number, U: Number>(
    alloc: Global,
    xs: &[T],
    ys: &[U],
    op: Op,
    grids: &Grids,
) -> Result<Column, AllocError>
    requires on { AreOn grids.now (map T.value xs.now) (map U.value ys.now) }
    ensures { IfOk result (AreReckoned op grids.now (map T.value xs.now) (map U.value ys.now)) }
{
    let [x0, x1, _, _, _, _] = grids.out.bounds();
    let mut row = Vec::new(alloc);
    row.resize((x1 - x0) as usize + 1, 0)?;
    let mut all = Vec::with_capacity(alloc, grids.out.count() as usize)?;
    push_planes(&mut all, &mut row, xs, ys, op, grids)?;
    Ok(Column::of(all))
}

/// Adds what is reckoned for all planes.
fn push_planes<T: Number, U: Number>(
    all: &mut Vec<i64>,
    row: &mut [i64],
    xs: &[T],
    ys: &[U],
    op: Op,
    grids: &Grids,
) -> Result<(), AllocError>
    requires on { AreOn grids.now (map T.value xs.now) (map U.value ys.now) }
    requires row { length row.old ≡ size_x grids.now.out }
    ensures { OnOk result (all.new.items ≡ all.old.items
        ++ values_on (reckoned_at op grids.now (map T.value xs.now) (map U.value ys.now))
        grids.now.out) }
{
    let [_, _, _, _, z0, z1] = grids.out.bounds();
    for k in z0..z1 + 1 {
        push_plane(all, row, xs, ys, op, grids, k)?;
    }
    Ok(())
}

/// Adds what is reckoned for a plane, row by row.
fn push_plane<T: Number, U: Number>(
    all: &mut Vec<i64>,
    row: &mut [i64],
    xs: &[T],
    ys: &[U],
    op: Op,
    grids: &Grids,
    k: u32,
) -> Result<(), AllocError>
    requires on { AreOn grids.now (map T.value xs.now) (map U.value ys.now) }
    requires row { length row.old ≡ size_x grids.now.out }
    requires z { IsOnAxis grids.now.out.z0 grids.now.out.z1 k }
    ensures { OnOk result (all.new.items ≡ all.old.items ++ joined (λ j. run_of (λ i.
        reckoned_at op grids.now (map T.value xs.now) (map U.value ys.now) i j k)
        grids.now.out.x0 (size_x grids.now.out)) grids.now.out.y0 (size_y grids.now.out)) }
{
    let [x0, _, y0, y1, _, _] = grids.out.bounds();
    let long = row.len();
    for j in y0..y1 + 1 {
        let first_start = grids.first.index_of(x0, j, k) as usize;
        let first = part_of(xs, first_start, long);
        let second_start = grids.second.index_of(x0, j, k) as usize;
        let second = part_of(ys, second_start, long);
        reckon_row(row, first, second, op);
        all.extend_from_slice(row)?;
    }
    Ok(())
}

/// So many numbers, from an index on.
fn part_of<T: Number>(numbers: &[T], start: usize, long: usize) -> &[T]
    requires within { start + long ≤ length numbers.now }
    ensures value { result.now ≡ take long (drop start numbers.now) }
    ensures long { length result.now ≡ long }
{
    &numbers[start..start + long]
}

/// Makes the numbers of a row what is reckoned of two rows: in 64 bits where these hold all numbers
/// of both types.
fn reckon_row<T: Number, U: Number>(row: &mut [i64], xs: &[T], ys: &[U], op: Op)
    requires first { length xs.now ≡ length row.old }
    requires second { length ys.now ≡ length row.old }
    ensures { (p : ℕ) → p < length row.old → slice_index_or row.new p (pos 0)
        ≡ clamped (reckoned op (slice_index_or (map T.value xs.now) p (pos 0))
        (slice_index_or (map U.value ys.now) p (pos 0))) }
{
    if !is_signed(T::kind()) || !is_signed(U::kind()) {
        return reckon_wide(row, xs, ys, op);
    }
    match op {
        Op::Add => reckon_signed::<Sum, T, U>(row, xs, ys),
        Op::Sub => reckon_signed::<Difference, T, U>(row, xs, ys),
        Op::Min => reckon_signed::<Lesser, T, U>(row, xs, ys),
        Op::Max => reckon_signed::<Greater, T, U>(row, xs, ys),
    }
}

/// Whether 64 bits with a sign hold each number of a kind.
fn is_signed(kind: Kind8) -> bool
    ensures { IsTrue result → IsSigned kind }
{
    match kind {
        Kind8::U64 => false,
        _ => true,
    }
}

/// The same of numbers that 64 bits with a sign hold, so that the loop is compiled to lanes.
fn reckon_signed<R: Reckoning, T: Number, U: Number>(row: &mut [i64], xs: &[T], ys: &[U])
    requires first { length xs.now ≡ length row.old }
    requires second { length ys.now ≡ length row.old }
    requires signed_first { IsSigned T.kind }
    requires signed_second { IsSigned U.kind }
    ensures { (p : ℕ) → p < length row.old → slice_index_or row.new p (pos 0)
        ≡ clamped (reckoned R.op (slice_index_or (map T.value xs.now) p (pos 0))
        (slice_index_or (map U.value ys.now) p (pos 0))) }
{
    for (p, x) in xs.iter().enumerate() {
        row[p] = R::of(signed(*x), signed(ys[p]));
    }
}

/// A number, in 64 bits with a sign.
fn signed<T: Number>(number: T) -> i64
    requires { IsSigned T.kind }
    ensures { result ≡ T.value number }
{
    number.whole() as i64
}

/// The same in 128 bits, which hold each sum and each difference.
fn reckon_wide<T: Number, U: Number>(row: &mut [i64], xs: &[T], ys: &[U], op: Op)
    requires first { length xs.now ≡ length row.old }
    requires second { length ys.now ≡ length row.old }
    ensures { (p : ℕ) → p < length row.old → slice_index_or row.new p (pos 0)
        ≡ clamped (reckoned op (slice_index_or (map T.value xs.now) p (pos 0))
        (slice_index_or (map U.value ys.now) p (pos 0))) }
{
    for (p, x) in xs.iter().enumerate() {
        row[p] = clamped(&reckoned(op, &whole(*x), &whole(ys[p])));
    }
}

/// A number, in 128 bits, of which it takes few.
fn whole<T: Number>(number: T) -> i128
    ensures value { result ≡ T.value number }
    ensures bound { unsigned_abs result ≤ 2 ^ 64 }
{
    number.whole()
}

/// The sum, the difference, the lesser or the greater of two numbers.
fn reckoned(op: Op, m: &i128, n: &i128) -> i128
    requires first { unsigned_abs m.now ≤ 2 ^ 64 }
    requires second { unsigned_abs n.now ≤ 2 ^ 64 }
    ensures { result ≡ reckoned op m.now n.now }
{
    match op {
        Op::Add => *m + *n,
        Op::Sub => *m - *n,
        Op::Min => (*m).min(*n),
        Op::Max => (*m).max(*n),
    }
}

/// A number, or the nearer end of the range of 64 bits.
fn clamped(n: &i128) -> i64
    ensures { result ≡ clamped n.now }
{
    (*n).clamp(i128::from(i64::MIN), i128::from(i64::MAX)) as i64
}
