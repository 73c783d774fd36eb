//! What tests of all filters have in common: images of given numbers.

ghost use Rattle.std.specs.Prelude.{◌↔◌, IsTrue};
ghost use Rattle.viz_extent.specs.Parts.{IsPart};

use std::alloc::Global;
use viz_column::{Column, Kind8};
use viz_dataset::{Image, is_origin, is_spacing};
use viz_extent::Extent;

/// Where index 0 of each image lies.
const ORIGIN: [i128; 3] = [10, -20, 30];

/// The type, the extent and the numbers of an image.
pub(crate) type Side<'a> = (Kind8, [u32; 6], &'a [i128]);

/// The steps between its points.
pub(crate) const STEPS: [i128; 3] = [1, 2, 3];

// Adds a number; whether it lies in the range and there is memory.
fn push(column: &mut Column, n: i128) -> bool {
    column.kind().fits(n) && column.push(n).is_ok()
}

// The column of these numbers.
fn column_of(alloc: Global, kind: Kind8, numbers: &[i128]) -> Option<Column> {
    let mut column = Column::new(alloc, kind);
    for n in numbers {
        if !push(&mut column, *n) {
            return None;
        }
    }
    Some(column)
}

// The image of a column, where there is a number for each point.
fn image_with(extent: Extent, column: Column) -> Option<Image> {
    if !is_origin(&ORIGIN) || !is_spacing(&STEPS) || column.len() != extent.count() {
        return None;
    }
    Some(Image::new(extent, ORIGIN, STEPS, column))
}

/// The image of these numbers.
pub(crate) fn image_of(
    alloc: Global,
    kind: Kind8,
    bounds: [u32; 6],
    numbers: &[i128],
) -> Option<Image> {
    let extent = Extent::new(bounds)?;
    let column = column_of(alloc, kind, numbers)?;
    image_with(extent, column)
}

/// Whether a part lies in an extent.
pub(crate) fn is_part(whole: &Extent, part: &Extent) -> bool
    ensures { IsTrue result ↔ IsPart whole.now part.now }
{
    whole.contains(part)
}

// Whether the image has these bounds.
fn has_bounds(image: &Image, bounds: [u32; 6]) -> bool {
    image.extent().bounds() == bounds
}

// Whether the image has these steps, and its place.
fn has_steps(image: &Image, spacing: [i128; 3]) -> bool {
    image.origin() == ORIGIN && image.spacing() == spacing
}

// Whether the number at an index is this one.
fn has_number(column: &Column, i: u64, n: i128) -> bool {
    i < column.len() && column.get(i) == n
}

// Whether the column has these numbers, of this type.
fn has_numbers(column: &Column, kind: Kind8, numbers: &[i128]) -> bool {
    if column.kind() != kind || column.len() != numbers.len() as u64 {
        return false;
    }
    for (i, n) in numbers.iter().enumerate() {
        if !has_number(column, i as u64, *n) {
            return false;
        }
    }
    true
}

/// Whether there is an image of these bounds, steps and numbers, of this type, at its place.
pub(crate) fn is_image(
    image: Option<Image>,
    bounds: [u32; 6],
    spacing: [i128; 3],
    kind: Kind8,
    numbers: &[i128],
) -> bool {
    match image {
        Some(image) => {
            has_bounds(&image, bounds)
                && has_steps(&image, spacing)
                && has_numbers(image.column(), kind, numbers)
        }
        None => false,
    }
}
