//! An image, put together of all its slabs.

ghost use Rattle.std.specs.Prelude.{◌≡◌, ◌<◌, ◌-◌, ◌++◌, All, IfOk, flat_map, length, map};
ghost use Rattle.viz_extent.specs.Extent.{IsExtent};
ghost use Rattle.viz_parts.specs.Stitching.{AreSlabsOf};
ghost use Rattle.viz_piece_stitch.specs.Steps.Slabs.{HasKind, IsImageAt, IsImageOf, IsPicture};
ghost use Rattle.viz_piece_stitch.specs.Steps.Slabs.{spanned, values_in};
ghost use Rattle.viz_piece_stitch.specs.Steps.Wholes.{AreSlabs};

use std::alloc::{AllocError, Global};
use viz_base::Shared;
use viz_column::{Column, Kind8, Number};
use viz_dataset::Image;
use viz_extent::Extent;
use viz_parts::Part;

/// The image of which these are all slabs that there are, in turn. The only one is taken over as it
/// stands, where it has no other owner.
pub(crate) fn stitched_image(alloc: Global, parts: Vec<Shared<Part>>) -> Result<Image, AllocError>
    requires { AreSlabs parts.items }
    ensures { IfOk result (λ image. (whole : _) → AreSlabsOf whole parts.items → image ≡ whole) }
{
    if parts.len() == 1 {
        return only_image(alloc, parts);
    }
    joined_image(alloc, parts)
}

/// The image of its only slab.
fn only_image(alloc: Global, parts: Vec<Shared<Part>>) -> Result<Image, AllocError>
    requires one { length parts.items ≡ 1 }
    requires slabs { AreSlabs parts.items }
    ensures { IfOk result (λ image. (whole : _) → AreSlabsOf whole parts.items → image ≡ whole) }
{
    let mut parts = parts;
    let Some(part) = parts.pop() else {
        unreachable!()
    };
    match part.try_unwrap() {
        Ok(Part::Image(image)) => Ok(image),
        Ok(Part::Mesh(_)) => unreachable!(),
        Err(part) => {
            parts.push(part)?;
            joined_image(alloc, parts)
        }
    }
}

/// The image of several slabs, each of which is given up as soon as its numbers are joined.
fn joined_image(alloc: Global, parts: Vec<Shared<Part>>) -> Result<Image, AllocError>
    requires { AreSlabs parts.items }
    ensures { IfOk result (λ image. (whole : _) → AreSlabsOf whole parts.items → image ≡ whole) }
{
    let first = first_image(&parts);
    let extent = joined_extent(first, last_image(&parts));
    let origin = first.origin();
    let spacing = first.spacing();
    let kind = first.column().kind();
    let column = joined_column(alloc, kind, parts)?;
    Ok(Image::new(extent, origin, spacing, column))
}

/// The image of the first part.
fn first_image(parts: &[Shared<Part>]) -> &Image
    requires some { 0 < length parts.now }
    requires images { All IsPicture parts.now }
    ensures { IsImageAt parts.now 0 result.now }
{
    match parts.first() {
        Some(part) => image_of(part.get()),
        None => unreachable!(),
    }
}

/// The image of the last part.
fn last_image(parts: &[Shared<Part>]) -> &Image
    requires some { 0 < length parts.now }
    requires images { All IsPicture parts.now }
    ensures { IsImageAt parts.now (length parts.now - 1) result.now }
{
    match parts.last() {
        Some(part) => image_of(part.get()),
        None => unreachable!(),
    }
}

/// The image that a part is.
fn image_of(part: &Part) -> &Image
    requires { IsPicture part.now }
    ensures { IsImageOf part.now result.now }
{
    match part {
        Part::Image(image) => image,
        Part::Mesh(_) => unreachable!(),
    }
}

/// The extent from the lowest plane of the first image to the highest of the last.
fn joined_extent(first: &Image, last: &Image) -> Extent
    requires { IsExtent (spanned first.now.extent last.now.extent) }
    ensures { result ≡ spanned first.now.extent last.now.extent }
{
    let [x0, x1, y0, y1, z0, _] = first.extent().bounds();
    let [_, _, _, _, _, z1] = last.extent().bounds();
    match Extent::new([x0, x1, y0, y1, z0, z1]) {
        Some(extent) => extent,
        None => unreachable!(),
    }
}

/// The numbers of all parts, which are of this type, one after the other.
fn joined_column(alloc: Global, kind: Kind8, parts: Vec<Shared<Part>>) -> Result<Column, AllocError>
    requires { All (HasKind kind) parts.items }
    ensures { IfOk result (λ c.
        c ≡ record { kind = kind; items = flat_map values_in parts.items }) }
{
    match kind {
        Kind8::I8 => column_of::<i8>(alloc, parts),
        Kind8::U8 => column_of::<u8>(alloc, parts),
        Kind8::I16 => column_of::<i16>(alloc, parts),
        Kind8::U16 => column_of::<u16>(alloc, parts),
        Kind8::I32 => column_of::<i32>(alloc, parts),
        Kind8::U32 => column_of::<u32>(alloc, parts),
        Kind8::I64 => column_of::<i64>(alloc, parts),
        Kind8::U64 => column_of::<u64>(alloc, parts),
    }
}

/// The same of one type.
fn column_of<T: Number>(alloc: Global, parts: Vec<Shared<Part>>) -> Result<Column, AllocError>
    requires { All (HasKind T.kind) parts.items }
    ensures { IfOk result (λ c.
        c ≡ record { kind = T.kind; items = flat_map values_in parts.items }) }
{
    Ok(Column::of(joined_numbers::<T>(alloc, parts)?))
}

/// The numbers of all parts, one after the other.
fn joined_numbers<T: Number>(alloc: Global, parts: Vec<Shared<Part>>) -> Result<Vec<T>, AllocError>
    requires { All (HasKind T.kind) parts.items }
    ensures { IfOk result (λ v. map T.value v.items ≡ flat_map values_in parts.items) }
{
    let mut numbers = Vec::with_capacity(alloc, number_count(&parts))?;
    for part in parts {
        add_numbers(&mut numbers, part)?;
    }
    Ok(numbers)
}

/// How many numbers the parts have in all; room is taken for so many.
fn number_count(parts: &[Shared<Part>]) -> usize {
    let mut count: usize = 0;
    for part in parts {
        if let Part::Image(image) = part.get() {
            count = count.saturating_add(image.column().len() as usize);
        }
    }
    count
}

/// Adds the numbers of a part, which is given up.
fn add_numbers<T: Number>(numbers: &mut Vec<T>, part: Shared<Part>) -> Result<(), AllocError>
    requires { HasKind T.kind part }
    ensures { IfOk result (λ _.
        map T.value numbers.new.items ≡ map T.value numbers.old.items ++ values_in part) }
{
    match part.get() {
        Part::Image(image) => add_column(numbers, image.column()),
        Part::Mesh(_) => unreachable!(),
    }
}

/// Adds the numbers of a column.
fn add_column<T: Number>(numbers: &mut Vec<T>, column: &Column) -> Result<(), AllocError>
    requires { column.now.kind ≡ T.kind }
    ensures { IfOk result (λ _.
        map T.value numbers.new.items ≡ map T.value numbers.old.items ++ column.now.items) }
{
    match column.numbers::<T>() {
        Some(more) => numbers.extend_from_slice(more),
        None => unreachable!(),
    }
}
