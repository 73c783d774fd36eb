//! Laws of filters on pieces of meshes. A function that calls one may rest on it.

ghost use Rattle.viz_piece_divisions.specs.Narrow.{MeshIsNarrow, PiecesAreNarrow};
ghost use Rattle.viz_piece_divisions.specs.Pieces.{AppendedPieces, BoundariesOfPieces, PartsFit};
ghost use Rattle.viz_piece_divisions.specs.Pieces.{SectionsOfPieces, SelectionsOfPieces};
ghost use Rattle.viz_piece_divisions.specs.Shares.{AppendedShareOut, BoundariesShareOut};
ghost use Rattle.viz_piece_divisions.specs.Shares.{SectionsShareOut, SelectionsShareOut};
ghost use Rattle.viz_piece_divisions.specs.Shares.{TurnSharesOut};

/// What a filter makes of a piece of a mesh is a piece of what it makes of the mesh.
pub fn pieces_go_to_pieces()
    ensures selection { SelectionsOfPieces }
    ensures boundary { BoundariesOfPieces }
    ensures section { SectionsOfPieces }
    ensures appended { AppendedPieces }
    ensures fit { PartsFit }
{}

/// What is made of a mesh that is shared out is shared out, and so is a mesh by cells in turn.
pub fn made_is_shared_out()
    ensures turn { TurnSharesOut }
    ensures selection { SelectionsShareOut }
    ensures boundary { BoundariesShareOut }
    ensures section { SectionsShareOut }
    ensures appended { AppendedShareOut }
{}

/// A number of a section of a piece is wide only where one of its mesh's sections is, and one of
/// these only where one of some piece's is.
pub fn sections_of_pieces_are_narrow()
    ensures piece { PiecesAreNarrow }
    ensures mesh { MeshIsNarrow }
{}
