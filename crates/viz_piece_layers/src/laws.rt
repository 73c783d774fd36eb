//! Laws of layers. A function that calls one may rest on it.
ghost use Rattle.viz_piece_layers.specs.Layers.{GoesByLayers, LayersAreEven, LayersAreRange};
ghost use Rattle.viz_piece_layers.specs.Layers.{LayersArePart, LeavesLieBetween, LevelsAreSteps};
ghost use Rattle.viz_piece_layers.specs.Layers.{MeetNear, PlanesHaveLayers, TouchAbove};
ghost use Rattle.viz_piece_layers.specs.Layers.{TouchBelow};
ghost use Rattle.viz_piece_layers.specs.Pieces.{EachOwnsSome, OwnsAreAll, PiecesAreParts};
ghost use Rattle.viz_piece_layers.specs.Pieces.{PiecesAreRanges, PiecesGoBySteps};
ghost use Rattle.viz_piece_layers.specs.Sheets.{PiecesStitch, SheetOwnsAreAll, ShiftedIsSheet};
ghost use Rattle.viz_piece_layers.specs.Sheets.{TetrahedraPartsArePartOf};

use viz_kuhn::{corners_are_the_cubes, edges_are_steps};
use viz_meaning::tetrahedra_are_a_sheet;

/// The list of tetrahedra goes layer by layer, and those that share a leaf lie in one layer or in
/// neighbours.
pub fn tetrahedra_go_by_layers()
    ensures list { GoesByLayers }
    ensures even { LayersAreEven }
    ensures range { LayersAreRange }
    ensures planes { PlanesHaveLayers }
    ensures between { LeavesLieBetween }
    ensures near { MeetNear }
    ensures above { TouchAbove }
    ensures below { TouchBelow }
{
    corners_are_the_cubes();
}

/// Cells by layers, with distances as levels, are a part.
pub fn layers_are_part()
    ensures part { LayersArePart }
    ensures steps { LevelsAreSteps }
{}

/// Each piece of an extent by layers is a part of all tetrahedra, and all pieces own them all.
pub fn pieces_are_parts()
    ensures parts { PiecesAreParts }
    ensures ranges { PiecesAreRanges }
    ensures steps { PiecesGoBySteps }
    ensures all { OwnsAreAll }
    ensures some { EachOwnsSome }
{
    corners_are_the_cubes();
}

/// The tetrahedra of the planes that a piece sees, with the leaves of the whole, are a part of the
/// whole's sheet, and all pieces own all its cells.
pub fn tetrahedra_parts_are_parts()
    ensures parts { TetrahedraPartsArePartOf }
    ensures sheet { ShiftedIsSheet }
    ensures all { SheetOwnsAreAll }
{
    corners_are_the_cubes();
    edges_are_steps();
    tetrahedra_are_a_sheet();
}

/// The parts of all pieces, put together, are the sheet of the whole image's tetrahedra.
pub fn pieces_stitch()
    ensures whole { PiecesStitch }
{
    corners_are_the_cubes();
    edges_are_steps();
    tetrahedra_are_a_sheet();
}
