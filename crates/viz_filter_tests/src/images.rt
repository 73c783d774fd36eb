//! Small images.

use std::alloc::Global;
use viz_column::Column;
use viz_dataset::{Image, is_origin, is_spacing};
use viz_extent::Extent;

/// A step of one unit, in billionths.
pub(crate) const UNIT: i128 = 1_000_000_000;

// So many numbers of 64 bits from a first one on.
fn column_from(alloc: Global, first: u64, count: u64) -> Option<Column> {
    let mut numbers = Vec::new(alloc);
    for n in 0..count {
        numbers.push(first.saturating_add(n)).ok()?;
    }
    Some(Column::of(numbers))
}

/// An image with steps of one unit from an origin on, whose scalars count from a first one on.
pub(crate) fn image_from(
    alloc: Global,
    bounds: [u32; 6],
    origin: [i128; 3],
    first: u64,
) -> Option<Image> {
    let spacing = [UNIT, UNIT, UNIT];
    let extent = Extent::new(bounds)?;
    let column = column_from(alloc, first, extent.count())?;
    if !is_origin(&origin) || !is_spacing(&spacing) || column.len() != extent.count() {
        return None;
    }
    Some(Image::new(extent, origin, spacing, column))
}
