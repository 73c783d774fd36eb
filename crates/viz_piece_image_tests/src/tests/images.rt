//! Images of numbers in no order.

use std::alloc::Global;
use std::test::Fail;
use viz_column::{Column, Kind8};
use viz_dataset::{Image, is_origin, is_spacing};
use viz_extent::Extent;

/// So many billionths make 1.
const ONE: i128 = 1_000_000_000;

// The image of a column, one unit from point to point, where there is one.
fn image_of(extent: Extent, column: Column) -> Option<Image> {
    let (origin, spacing) = ([0; 3], [ONE; 3]);
    if !is_origin(&origin) || !is_spacing(&spacing) || column.len() != extent.count() {
        return None;
    }
    Some(Image::new(extent, origin, spacing, column))
}

/// The image of these numbers.
pub(super) fn image_with(
    alloc: Global,
    kind: Kind8,
    bounds: [u32; 6],
    numbers: &[i128],
) -> Result<Image, Fail> {
    let extent = Extent::new(bounds).ok_or("an extent")?;
    let mut column = Column::new(alloc, kind);
    for n in numbers {
        if column.kind().fits(*n) {
            column.push(*n)?;
        }
    }
    let image = image_of(extent, column).ok_or("an image")?;
    Ok(image)
}

/// Numbers from 0 to 100 in no order, so many.
pub(super) fn mixed_numbers(alloc: Global, bounds: [u32; 6]) -> Result<Vec<i128>, Fail> {
    let extent = Extent::new(bounds).ok_or("an extent")?;
    let mut numbers = Vec::new(alloc);
    for i in 0..extent.count() {
        numbers.push(i128::from(i % 103 * 37 % 101))?;
    }
    Ok(numbers)
}
