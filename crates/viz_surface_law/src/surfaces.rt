//! The test of a sheet that an audit takes.

ghost use Rattle.std.specs.Prelude.{◌≡◌, ◌↔◌, All, IsTrue, length};
ghost use Rattle.viz_surface_law.specs.Surfaces.{IsEdgeName, IsSurface};

use viz_extent::Extent;
use viz_sheet::Sheet;

/// Whether a sheet has triangles alone, and each name is that of an edge between two points of the
/// grid, the lesser leaf first. It is what `audit` needs.
pub fn is_surface(sheet: &Sheet, whole: &Extent) -> bool
    ensures value { IsTrue result ↔ IsSurface whole.now sheet.now }
{
    are_edge_names(sheet, whole.count()) && are_triangles(sheet)
}

/// Each name is that of an edge between two of so many points.
fn are_edge_names(sheet: &Sheet, count: u64) -> bool
    ensures { IsTrue result ↔ All (IsEdgeName count) sheet.now.names }
{
    for rank in 0..sheet.point_count() {
        if !is_edge_name(sheet.name(rank), count) {
            return false;
        }
    }
    true
}

/// A name is that of an edge between two of so many points, the lesser leaf first.
fn is_edge_name(name: &[u32], count: u64) -> bool
    ensures { IsTrue result ↔ IsEdgeName count name.now }
{
    name.len() == 2 && u64::from(name[0]) < count && u64::from(name[1]) < count && name[0] < name[1]
}

/// Each cell has three names.
fn are_triangles(sheet: &Sheet) -> bool
    ensures { IsTrue result ↔ All (λ cell. length cell ≡ 3) sheet.now.cells }
{
    for i in 0..sheet.cell_count() {
        if sheet.cell(i).len() != 3 {
            return false;
        }
    }
    true
}
