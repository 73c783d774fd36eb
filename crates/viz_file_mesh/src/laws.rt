//! What the rules of a file say of its pieces. A law is a function that does nothing: its contract
//! holds of the definitions alone.

ghost use Rattle.std.specs.Prelude.{◌≡◌, ◌<◌, ◌*◌, ◌^◌, All, Bool, length};
ghost use Rattle.viz_lex.specs.Reading.{Reading};
ghost use Rattle.viz_mesh_read.specs.declared.coordinates.FilePoints.{FilePoints};
ghost use Rattle.viz_mesh_read.specs.Points.{points};
ghost use Rattle.viz_mesh_read.specs.Grid.{Grid, grid};
ghost use Rattle.viz_mesh_read.specs.Poly.{Poly, polydata};
ghost use Rattle.viz_mesh_read.specs.Pieces.{pieces_of};
ghost use Rattle.viz_sheet.specs.Ranked.{IsCell};
ghost use Rattle.viz_file_mesh.specs.GridPieces.{grid_pieces};

/// The pieces of a grid and of polydata that are read are cells: each has 1 to 4 different indices
/// of the file's points. So a cell of a grid is dropped just where it repeats an index.
pub fn read_pieces_are_cells()
    ensures grid { (binary later : Bool) (old new : Reading) (g : Grid)
        → (grid binary later).is old new g → All (IsCell g.points.count) (grid_pieces g.cells) }
    ensures polydata { (binary later : Bool) (old new : Reading) (p : Poly)
        → (polydata binary later).is old new p → All (IsCell p.points.count) (pieces_of p.cells) }
    ensures few { (binary : Bool) (old new : Reading) (p : FilePoints)
        → (points binary).is old new p → p.count < 2 ^ 31 }
{}
