//! Laws of wide numbers. A function that calls one may rest on it.

ghost use Rattle.viz_node_narrow.specs.Nodes.{GivenAreNarrow, NarrowAreGiven};
ghost use Rattle.viz_node_narrow.specs.Pieces.{NarrowByPieces, NarrowBySlabs, SlabsAreNarrow};

use viz_meaning::tetrahedra_are_a_sheet;
use viz_node_meaning::rules_are_one;
use viz_piece_divisions::sections_of_pieces_are_narrow;
use viz_piece_section::sections_of_shifted_sheets;
use viz_piece_tets::{layers_share_out, tets_are_parts};

/// What a node gives by the exact rule its data come to where no number of a section is wide at
/// any node upstream, and only there.
pub fn given_sections_are_narrow()
    ensures given { NarrowAreGiven }
    ensures narrow { GivenAreNarrow }
{
    rules_are_one();
}

/// No number of a section of a mesh, or of an image, is wide where none is in any piece of it.
pub fn pieces_make_narrow()
    ensures mesh { NarrowByPieces }
    ensures image { NarrowBySlabs }
    ensures slab { SlabsAreNarrow }
{
    layers_share_out();
    sections_of_pieces_are_narrow();
    sections_of_shifted_sheets();
    tetrahedra_are_a_sheet();
    tets_are_parts();
}
