//! The threshold of an image.

ghost use Rattle.std.specs.Prelude.{◌≡◌, pos, true, length, map, replicate, IfOk, IfSome, IfNone};
ghost use Rattle.std.specs.Int.{int_max, int_min};
ghost use Rattle.viz_extent.specs.Parts.{IsPart};
ghost use Rattle.viz_column.specs.Kinds.{fits};
ghost use Rattle.viz_column.specs.Numbers.{AreInRange};
ghost use Rattle.viz_meaning.specs.ImageFilters.{threshold_of};
ghost use Rattle.viz_meaning.specs.Threshold.{kept_numbers};
ghost use Rattle.viz_meaning.specs.WholeImages.{GivesOn};
ghost use Rattle.viz_image_ops.specs.Steps.{IsLeast, IsMost, SelectSame, SelectNone};

use crate::bounded::{Bounded, own};
use std::alloc::{AllocError, Global};
use viz_column::{Column, Kind8, Lent, Number};
use viz_dataset::Image;
use viz_extent::Extent;

/// The numbers of a threshold on `out`: each number from `lo` to `hi` stays, and every other
/// becomes 0. Numbers are compared as whole numbers and keep their type; the input contains `out`.
pub fn threshold(
    alloc: Global,
    input: &Image,
    lo: &i64,
    hi: &i64,
    out: &Extent,
) -> Result<Image, AllocError>
    requires within { IsPart input.now.extent out.now }
    ensures value { IfOk result (GivesOn (threshold_of lo.now hi.now) input.now out.now) }
{
    if input.extent() == *out {
        return thresholded(alloc, input, lo, hi);
    }
    let part = input.restrict(alloc, out)?;
    thresholded(alloc, &part, lo, hi)
}

/// The threshold of an image on its own extent.
fn thresholded(alloc: Global, image: &Image, lo: &i64, hi: &i64) -> Result<Image, AllocError>
    ensures { IfOk result (GivesOn (threshold_of lo.now hi.now) image.now image.now.extent) }
{
    let column = keep_column(alloc, image.column(), lo, hi)?;
    Ok(image.with_column(column))
}

/// Each number of a column between the bounds, and 0 for every other.
fn keep_column(alloc: Global, column: &Column, lo: &i64, hi: &i64) -> Result<Column, AllocError>
    ensures { IfOk result (λ c. c ≡ kept_numbers lo.now hi.now column.now) }
{
    match column.slice() {
        Lent::I8(numbers) => keep(alloc, numbers, lo, hi),
        Lent::U8(numbers) => keep(alloc, numbers, lo, hi),
        Lent::I16(numbers) => keep(alloc, numbers, lo, hi),
        Lent::U16(numbers) => keep(alloc, numbers, lo, hi),
        Lent::I32(numbers) => keep(alloc, numbers, lo, hi),
        Lent::U32(numbers) => keep(alloc, numbers, lo, hi),
        Lent::I64(numbers) => keep(alloc, numbers, lo, hi),
        Lent::U64(numbers) => keep(alloc, numbers, lo, hi),
    }
}

/// Each number between the bounds, and 0 for every other.
fn keep<T: Bounded>(alloc: Global, numbers: &[T], lo: &i64, hi: &i64) -> Result<Column, AllocError>
    requires own { AreInRange (record { kind = T.kind; items = map T.value numbers.now }) }
    ensures { IfOk result (λ c. c ≡ kept_numbers lo.now hi.now
        (record { kind = T.kind; items = map T.value numbers.now })) }
{
    match bounds_of::<T>(lo, hi) {
        Some(own) => Ok(Column::of(T::keep_within(alloc, numbers, own.0, own.1)?)),
        None => Ok(Column::of(zeros::<T>(alloc, numbers.len())?)),
    }
}

/// So many zeros.
fn zeros<T: Number>(alloc: Global, count: usize) -> Result<Vec<T>, AllocError>
    ensures { IfOk result (λ v. map T.value v.items ≡ replicate count (pos 0)) }
{
    let mut numbers = Vec::new(alloc);
    numbers.resize(count, T::zero())?;
    Ok(numbers)
}

/// Bounds of a type that select the same of its numbers as these, or `None` where none of its
/// numbers lies between them.
fn bounds_of<T: Number>(lo: &i64, hi: &i64) -> Option<(T, T)>
    ensures some { IfSome result (λ own.
        SelectSame T.kind lo.now hi.now (T.value own.0) (T.value own.1)) }
    ensures none { IfNone result (SelectNone T.kind lo.now hi.now) }
{
    let (lo, hi) = own_bounds(T::kind(), lo, hi)?;
    Some((own(&lo), own(&hi)))
}

/// Two bounds, each brought to the nearer end of a type where it lies outside, or `None` where no
/// number of the type lies between them.
fn own_bounds(kind: Kind8, lo: &i64, hi: &i64) -> Option<(i128, i128)>
    ensures low { IfSome result (λ own. fits kind own.0 ≡ true) }
    ensures high { IfSome result (λ own. fits kind own.1 ≡ true) }
    ensures some { IfSome result (λ own. SelectSame kind lo.now hi.now own.0 own.1) }
    ensures none { IfNone result (SelectNone kind lo.now hi.now) }
{
    let lo = greater(&i128::from(*lo), &least(kind));
    let hi = lesser(&i128::from(*hi), &most(kind));
    if hi < lo {
        return None;
    }
    Some((lo, hi))
}

/// The greater of two numbers.
fn greater(m: &i128, n: &i128) -> i128
    ensures { result ≡ int_max m.now n.now }
{
    (*m).max(*n)
}

/// The lesser of two numbers.
fn lesser(m: &i128, n: &i128) -> i128
    ensures { result ≡ int_min m.now n.now }
{
    (*m).min(*n)
}

/// The least number of a type.
fn least(kind: Kind8) -> i128
    ensures { IsLeast kind result }
{
    match kind {
        Kind8::I8 => i128::from(i8::MIN),
        Kind8::I16 => i128::from(i16::MIN),
        Kind8::I32 => i128::from(i32::MIN),
        Kind8::I64 => i128::from(i64::MIN),
        Kind8::U8 | Kind8::U16 | Kind8::U32 | Kind8::U64 => 0,
    }
}

/// The greatest number of a type.
fn most(kind: Kind8) -> i128
    ensures { IsMost kind result }
{
    match kind {
        Kind8::I8 => i128::from(i8::MAX),
        Kind8::U8 => i128::from(u8::MAX),
        Kind8::I16 => i128::from(i16::MAX),
        Kind8::U16 => i128::from(u16::MAX),
        Kind8::I32 => i128::from(i32::MAX),
        Kind8::U32 => i128::from(u32::MAX),
        Kind8::I64 => i128::from(i64::MAX),
        Kind8::U64 => i128::from(u64::MAX),
    }
}
