//! Whether each cube is mixed.

ghost use Rattle.std.specs.Prelude.{◌≡◌, IfOk};
ghost use Rattle.viz_mixed.specs.Mixed.{mixed_at};

use crate::cubes::mixed_cubes;
use crate::plane::plane_of;
use std::alloc::{AllocError, Global};
use viz_dataset::Image;
use viz_lanes::Bits;

/// Of each cube of a slab, in their order, whether one of its corners has a number of at least the
/// level, and another one hasn't. Each other cube has no part of the contour at the level.
pub fn mixed(alloc: Global, slab: &Image, level: &i64) -> Result<Bits, AllocError>
    ensures value { IfOk result (λ bits. bits ≡ mixed_at level.now slab.now) }
{
    let extent = slab.extent();
    let plane = plane_of(alloc, slab.column(), level)?;
    mixed_cubes(alloc, &extent, &plane)
}
