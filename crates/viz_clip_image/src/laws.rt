//! Laws of the clipped volumes of images. A function that calls one may rest on it.

ghost use Rattle.viz_clip_image.specs.Images.{ClipsOfImagesFit, ImagesAreSimple};
ghost use Rattle.viz_clip_image.specs.Images.{TetrahedraDiffer};

use viz_clip_law::facets_lie_in_two;
use viz_kuhn::{corners_are_the_cubes, edges_are_steps};
use viz_surface_law::facets_are_shared;

/// No two tetrahedra of an image have the same leaves, and no facet lies in more than two.
pub fn images_are_simple()
    ensures differ { TetrahedraDiffer }
    ensures simple { ImagesAreSimple }
{
    facets_are_shared();
}

/// Each facet of the clip of an image lies in two of its tetrahedra, or in one, and in one just
/// where its vertices are three cuts, or where it lies on the boundary of the grid.
pub fn clips_of_images_fit()
    ensures facets { ClipsOfImagesFit }
{
    corners_are_the_cubes();
    edges_are_steps();
    facets_are_shared();
    facets_lie_in_two();
    images_are_simple();
}
