//! Laws of the pieces of an image's tetrahedra. A function that calls one may rest on it.

ghost use Rattle.viz_piece_tets.specs.Tets.{LayersShareOut, TetsAreParts};

use viz_meaning::tetrahedra_are_a_sheet;
use viz_piece_layers::tetrahedra_parts_are_parts;

/// The block that a piece asks for gives a part of the whole's tetrahedra, for every piece and
/// number of ghost levels.
pub fn tets_are_parts()
    ensures parts { TetsAreParts }
{
    tetrahedra_parts_are_parts();
    tetrahedra_are_a_sheet();
}

/// All pieces in turn own all tetrahedra.
pub fn layers_share_out()
    ensures all { LayersShareOut }
{
    tetrahedra_parts_are_parts();
}
