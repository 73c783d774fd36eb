//! The sheet of an image's tetrahedra.

ghost use Rattle.std.specs.Prelude.{◌≡◌, ◌∷◌, [], IfOk};
ghost use Rattle.viz_meaning.specs.Tetrahedra.{tetrahedra_sheet};

use crate::cubes::cells;
use crate::points::places;
use std::alloc::{AllocError, Global};
use viz_dataset::Image;
use viz_kuhn::{corners_are_the_cubes, edges_are_steps};
use viz_sheet::{Leaves, Mesh, Ranks, Sheet, sheet_of};

/// The tetrahedra of an image: one sheet, in which a point that a cube has is named by its number
/// in the image.
pub fn tets(alloc: Global, image: &Image) -> Result<Mesh, AllocError>
    ensures value { IfOk result (λ mesh. mesh ≡ tetrahedra_sheet image.now ∷ []) }
{
    let sheet = sheet_by(alloc, image)?;
    Ok(Mesh::new(vec![in alloc; sheet]?))
}

/// That sheet.
fn sheet_by(alloc: Global, image: &Image) -> Result<Sheet, AllocError>
    ensures value { IfOk result (λ s. s ≡ tetrahedra_sheet image.now) }
{
    let whole = image.extent();
    let leaves = Leaves::of_points(alloc, whole.count() as u32)?;
    let places = places(alloc, image)?;
    let ranks = Ranks::Tetrahedra(cells(alloc, &whole)?);
    corners_are_the_cubes();
    edges_are_steps();
    let sheet = sheet_of(alloc, leaves, places, ranks)?;
    Ok(sheet)
}
