//! A part of an image.

ghost use Rattle.std.specs.Prelude.{IfOk};
ghost use Rattle.viz_extent.specs.Extent.{Bounds};
ghost use Rattle.viz_extent.specs.Parts.{IsPart};
ghost use Rattle.viz_meaning.specs.ImageFilters.{crop_of};
ghost use Rattle.viz_meaning.specs.WholeImages.{GivesOn};

use std::alloc::{AllocError, Global};
use viz_dataset::Image;
use viz_extent::Extent;

/// The numbers of a crop on `out`, whatever its box is: a number for each of the points, with the
/// indices, the positions and the type that it has in the input, which contains `out`.
pub fn crop(alloc: Global, input: &Image, out: &Extent) -> Result<Image, AllocError>
    requires within { IsPart input.now.extent out.now }
    ensures value { IfOk result (λ image.
        (box : Bounds) → GivesOn (crop_of box) input.now out.now image) }
{
    input.restrict(alloc, out)
}
