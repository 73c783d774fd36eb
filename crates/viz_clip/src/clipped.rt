//! The type `Clipped`.
ghost use Rattle.std.specs.Prelude.{◌≡◌, [], ◌∷◌, IfOk};
ghost use Rattle.viz_clip_meaning.specs.Clip.{sheet_of};
ghost use Rattle.viz_sheet.specs.Arrays.{points_in};
ghost use Rattle.viz_clip.specs.Steps.Vertices.{IsKept, tets_at, vertices_in};

use std::alloc::{AllocError, Global};
use std::marker::Model;
use viz_sheet::{Leaves, Mesh, Places, Ranks, Sheet};

/// Vertices in their order, the point of each, and tetrahedra of them.
///
/// A tetrahedron is kept by the ranks of its vertices, and a vertex by its leaves. Contracts see
/// the vertices, the points, and the tetrahedra by their vertices.
#[derive(Debug, Drop)]
pub struct Clipped {
    corners: Vec<u32>,
    cuts: Vec<[u32; 2]>,
    places: Places,
    tets: Vec<[u32; 4]>,
}

impl Model for Clipped {
    ghost use Rattle.viz_sheet.specs.Arrays.{points_in};
    ghost use Rattle.viz_clip_meaning.specs.Clip.{ClippedData};
    ghost use Rattle.viz_clip.specs.Steps.Vertices.{IsKept, tets_at, vertices_in};

    ghost Value = { ClippedData };

    ghost view = { λ c. record {
      vertices = vertices_in c.corners.items c.cuts.items;
      points = points_in c.places;
      tets = tets_at (vertices_in c.corners.items c.cuts.items) c.tets.items;
    } };

    ghost invariant = { λ c.
        IsKept c.corners.items c.cuts.items (points_in c.places) c.tets.items };
}

impl Clipped {
    /// Vertices that ascend, a point for each, and tetrahedra by the ranks of their vertices.
    pub(crate) fn new(
        corners: Vec<u32>,
        cuts: Vec<[u32; 2]>,
        places: Places,
        tets: Vec<[u32; 4]>,
    ) -> Clipped
        requires kept { IsKept corners.items cuts.items (points_in places) tets.items }
        ensures vertices { result.vertices ≡ vertices_in corners.items cuts.items }
        ensures points { result.points ≡ points_in places }
        ensures tets { result.tets
            ≡ tets_at (vertices_in corners.items cuts.items) tets.items }
    {
        Clipped {
            corners,
            cuts,
            places,
            tets,
        }
    }
}

/// A clipped volume as a mesh of one sheet of tetrahedra, each vertex a leaf by its rank.
pub fn as_mesh(alloc: Global, clipped: Clipped) -> Result<Mesh, AllocError>
    ensures value { IfOk result (λ m. m ≡ sheet_of clipped ∷ []) }
{
    let Clipped {
        corners,
        cuts,
        places,
        tets,
    } = clipped;
    let leaves = Leaves::of_points(alloc, (corners.len() + cuts.len()) as u32)?;
    let mut sheets = Vec::with_capacity(alloc, 1)?;
    sheets.push(Sheet::new(leaves, places, Ranks::Tetrahedra(tets)))?;
    Ok(Mesh::new(sheets))
}
