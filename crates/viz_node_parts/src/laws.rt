//! Laws of what nodes take and make of true parts. A law is a function that does nothing: its
//! contract holds of the definitions alone.

ghost use Rattle.viz_node_parts.specs.Answering.{PartsAskedAreTaken, PartsMadeAnswer};

use viz_legacy_read::files_are_definite;
use viz_node_answers::{blocks_answer, image_filters_answer, mesh_filters_answer};
use viz_node_division::datasets_are_divided;
use viz_piece_divisions::pieces_go_to_pieces;

/// Of parts for what a node asks for, of what feeds it, the part that it makes is one of what it
/// makes.
pub fn parts_made_answer()
    ensures made { PartsMadeAnswer }
{
    blocks_answer();
    image_filters_answer();
    mesh_filters_answer();
    files_are_definite();
    datasets_are_divided();
}

/// Parts for what a node asks for, of what feeds it, are those that it takes.
pub fn asked_parts_are_taken()
    ensures taken { PartsAskedAreTaken }
{
    pieces_go_to_pieces();
}
