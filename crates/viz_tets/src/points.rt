//! The points of all leaves of an image.

ghost use Rattle.std.specs.Prelude.{◌≡◌, ◌<◌, IfOk, IfSome};
ghost use Rattle.viz_extent.specs.Extent.{count_of};
ghost use Rattle.viz_sheet.specs.Arrays.{points_in};
ghost use Rattle.viz_meaning.specs.Tetrahedra.{leaf_points, point_of_leaf};

use std::alloc::{AllocError, Global};
use viz_dataset::Image;
use viz_fraction::{Point5, SmallPoint, small};
use viz_sheet::Places;

/// The point of each leaf, in half the room where all fit.
pub(crate) fn places(alloc: Global, image: &Image) -> Result<Places, AllocError>
    ensures value { IfOk result (λ p. points_in p ≡ leaf_points image.now) }
{
    match small_points(alloc, image)? {
        Some(points) => Ok(Places::Small(points)),
        None => Ok(Places::Wide(wide_points(alloc, image)?)),
    }
}

/// The points, where the numbers of all fit 64 bits.
fn small_points(alloc: Global, image: &Image) -> Result<Option<Vec<SmallPoint>>, AllocError>
    ensures { IfOk result (λ r. IfSome r (λ v. v.items ≡ leaf_points image.now)) }
{
    let count = image.extent().count() as u32;
    let mut points = Vec::with_capacity(alloc, count as usize)?;
    for leaf in 0..count {
        match small(&leaf_point(image, leaf)) {
            Some(point) => points.push(point)?,
            None => return Ok(None),
        }
    }
    Ok(Some(points))
}

/// The points, of whatever width.
fn wide_points(alloc: Global, image: &Image) -> Result<Vec<Point5>, AllocError>
    ensures { IfOk result (λ v. v.items ≡ leaf_points image.now) }
{
    let count = image.extent().count() as u32;
    let mut points = Vec::with_capacity(alloc, count as usize)?;
    for leaf in 0..count {
        points.push(leaf_point(image, leaf))?;
    }
    Ok(points)
}

/// The point of a leaf.
fn leaf_point(image: &Image, leaf: u32) -> Point5
    requires within { leaf < count_of image.now.extent }
    ensures value { result ≡ point_of_leaf image.now leaf }
{
    let (i, j, k) = image.extent().place_of(u64::from(leaf));
    image.point(i, j, k)
}
