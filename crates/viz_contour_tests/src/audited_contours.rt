//! The audit of an image's contour: its lone sides are those on the boundary, by proof.

ghost use Rattle.std.specs.Prelude.{◌≡◌, ◌+◌, IfOk};

use std::alloc::Global;
use std::test::Fail;
use viz_column::Column;
use viz_contour::contour;
use viz_dataset::{Image, is_origin, is_spacing};
use viz_extent::Extent;
use viz_meaning::WorkStop;
use viz_surface_law::{Counts, audit, contours_are_closed};

// The counts of a contour. The law says that an audit takes it, and what the counts have in common.
fn audited(alloc: Global, level: &i64, image: &Image) -> Result<Counts, WorkStop>
    ensures lone { IfOk result (λ c. c.lone ≡ c.border) }
    ensures sides { IfOk result (λ c. c.sides ≡ c.two + c.border) }
{
    contours_are_closed();
    let whole = image.extent();
    let sheet = contour(alloc, level, image)?;
    let counts = audit(alloc, &sheet, &whole)?;
    Ok(counts)
}

// The image of a column, its points a billionth apart.
fn image_of(extent: Extent, column: Column) -> Option<Image> {
    let origin = [0; 3];
    let spacing = [1; 3];
    if !is_origin(&origin) || !is_spacing(&spacing) || column.len() != extent.count() {
        return None;
    }
    Some(Image::new(extent, origin, spacing, column))
}

// The values 7 i + 11 j + 13 k modulo 17 at 32 points along each axis.
fn values(alloc: Global) -> Result<Column, Fail> {
    let mut values = Vec::with_capacity(alloc, 32 * 32 * 32)?;
    for k in 0..32_u32 {
        for j in 0..32_u32 {
            for i in 0..32_u32 {
                values.push(((7 * i + 11 * j + 13 * k) % 17) as u8)?;
            }
        }
    }
    Ok(Column::of(values))
}

// A plain program that counted facets with both kinds of corners, and tetrahedra with two corners
// of each kind, gave these numbers.
#[test]
fn a_rough_contour_is_closed(rt: HostRuntime) -> Result<(), Fail> {
    let extent = Extent::new([0, 31, 0, 31, 0, 31]).ok_or("an extent")?;
    let image = image_of(extent, values(rt.alloc())?).ok_or("an image")?;
    let counts = audited(rt.alloc(), &8, &image)?;
    let row = [counts.sides, counts.two, counts.lone, counts.border];
    assert_eq!(rt; row, [362579, 352405, 10174, 10174]);
    Ok(())
}
