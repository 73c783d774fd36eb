//! Laws of the divisions of what nodes give. A function that calls one may rest on it.

ghost use Rattle.viz_node_division.specs.Laws.{
  DataAreExact,
  DatasetsAreDivided,
  DividedAreExact,
  DividedByPorts,
  DivisionsAreOne,
  DivisionsMarkCells,
  DivisionsShareOut,
  ExactAreDivided,
  OnlyPieceOwnsAll,
};

use viz_node_meaning::rules_are_one;
use viz_piece_divisions::made_is_shared_out;
use viz_piece_layers::pieces_are_parts;

/// What a node gives from scratch, or in whole numbers without bound, has a division, and only one.
pub fn datasets_are_divided()
    ensures some { DatasetsAreDivided }
    ensures exact { ExactAreDivided }
    ensures given { DividedAreExact }
    ensures narrow { DataAreExact }
    ensures one { DivisionsAreOne }
{
    rules_are_one();
}

/// What a node gives with its division is what it makes of what feeds its ports with theirs.
pub fn divided_by_ports()
    ensures ports { DividedByPorts }
{}

/// The division of a mesh that a node gives shares out all its cells, and marks each of them for
/// each piece; the only piece owns all.
pub fn divisions_share_out()
    ensures all { DivisionsShareOut }
    ensures marks { DivisionsMarkCells }
    ensures only { OnlyPieceOwnsAll }
{
    made_is_shared_out();
    pieces_are_parts();
}
