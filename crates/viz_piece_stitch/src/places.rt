//! The points of all parts, at the ranks of their names.

ghost use Rattle.std.specs.Prelude.{◌≡◌, IfOk, length};
ghost use Rattle.viz_sheet.specs.Arrays.{points_in};
ghost use Rattle.viz_piece_stitch.specs.Steps.Put.{IsPut};

use crate::points::put_items;
use std::alloc::{AllocError, Global};
use viz_fraction::{Point5, SmallPoint};
use viz_sheet::Places;

/// The same points, in the type that holds all.
fn widened(alloc: Global, points: &[SmallPoint]) -> Result<Vec<Point5>, AllocError>
    ensures { IfOk result (λ v. v.items ≡ points.now) }
{
    let mut wide = Vec::with_capacity(alloc, points.len())?;
    for point in points {
        wide.push(point.wide())?;
    }
    Ok(wide)
}

/// Points with those of a part put at ranks. Room is taken for so many in all.
pub(crate) fn put_points(
    alloc: Global,
    points: Places,
    count: usize,
    ranks: &[u32],
    part: &Places,
) -> Result<Places, AllocError>
    requires matched { length (points_in part.now) ≡ length ranks.now }
    ensures { IfOk result (λ p.
        IsPut (points_in points) ranks.now (points_in part.now) (points_in p)) }
{
    match points {
        Places::Small(points) => match part {
            Places::Small(part) => Ok(Places::Small(with_items(points, count, ranks, part)?)),
            Places::Wide(part) => {
                let wide = widened(alloc, &points)?;
                Ok(Places::Wide(with_items(wide, count, ranks, part)?))
            }
        },
        Places::Wide(points) => match part {
            Places::Small(part) => {
                let part = widened(alloc, part)?;
                Ok(Places::Wide(with_items(points, count, ranks, &part)?))
            }
            Places::Wide(part) => Ok(Places::Wide(with_items(points, count, ranks, part)?)),
        },
    }
}

/// Items with those of a part put at ranks.
fn with_items<T: Copy + Drop>(
    items: Vec<T>,
    count: usize,
    ranks: &[u32],
    part: &[T],
) -> Result<Vec<T>, AllocError>
    requires matched { length part.now ≡ length ranks.now }
    ensures { IfOk result (λ v. IsPut items.items ranks.now part.now v.items) }
{
    let mut items = items;
    items.reserve_exact(count.saturating_sub(items.len()))?;
    put_items(&mut items, ranks, part)?;
    Ok(items)
}
