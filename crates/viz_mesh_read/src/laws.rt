//! What the rules of points and sections mean. A law is a function that does nothing: its contract
//! holds of the definitions alone.

ghost use Rattle.std.specs.Prelude.{◌≡◌, ◌*◌, ℕ, Bool, List, length};
ghost use Rattle.viz_lex.specs.Reading.{Reading};
ghost use Rattle.viz_lex.specs.Rules.{Decides, IsDefinite};
ghost use Rattle.viz_mesh_read.specs.declared.coordinates.FilePoints.{FilePoints};
ghost use Rattle.viz_mesh_read.specs.Points.{points};
ghost use Rattle.viz_counted_cells.specs.Sections.{HaveIndices};
ghost use Rattle.viz_mesh_read.specs.CellSections.{cell_section, cell_section_numbers};
ghost use Rattle.viz_mesh_read.specs.Grid.{Grid, grid, grid_numbers};
ghost use Rattle.viz_mesh_read.specs.GridSteps.{grid_at};
ghost use Rattle.viz_mesh_read.specs.Poly.{Poly, polydata, polydata_numbers, HaveIndicesByKind};
ghost use Rattle.viz_mesh_read.specs.PolySteps.{polydata_at};
ghost use Rattle.viz_mesh_read.specs.Steps.{points_at, cell_section_at};

/// For each text there is exactly one answer: points, cells, a grid or polydata, or a fault.
pub fn geometry_is_definite()
    ensures points { (binary : Bool) → IsDefinite (points binary) }
    ensures section { (later binary : Bool) (n : ℕ) → IsDefinite (cell_section later binary n) }
    ensures grid { (binary later : Bool) → IsDefinite (grid binary later) }
    ensures polydata { (binary later : Bool) → IsDefinite (polydata binary later) }
{}

/// Each reader of this crate decides its rule: it gives just what stands there, and else the fault.
pub fn readers_decide_their_rules()
    ensures points { (binary : Bool) → Decides (points binary) (points_at binary) }
    ensures section { (later binary : Bool) (n : ℕ)
        → Decides (cell_section_numbers later binary n) (cell_section_at later binary n) }
    ensures grid { (binary later : Bool)
        → Decides (grid_numbers binary later) (grid_at binary later) }
    ensures polydata { (binary later : Bool)
        → Decides (polydata_numbers binary later) (polydata_at binary later) }
{}

/// Each index of a cell that is read is that of a point: of a section, of a grid and of polydata.
pub fn indices_are_those_of_points()
    ensures section { (later binary : Bool) (n : ℕ) (old new : Reading) (cells : List (List ℕ))
        → (cell_section later binary n).is old new cells → HaveIndices n cells }
    ensures grid { (binary later : Bool) (old new : Reading) (g : Grid)
        → (grid binary later).is old new g → HaveIndices g.points.count g.cells }
    ensures polydata { (binary later : Bool) (old new : Reading) (p : Poly)
        → (polydata binary later).is old new p → HaveIndicesByKind p.points.count p.cells }
{}

/// There are three coordinates for each point.
pub fn points_have_three_coordinates()
    ensures sized { (binary : Bool) (old new : Reading) (p : FilePoints)
        → (points binary).is old new p → length p.coordinates.items ≡ 3 * p.count }
{}
