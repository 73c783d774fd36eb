//! Whether a mesh may be written with strips.

ghost use Rattle.std.specs.Prelude.{◌≡◌, ◌≤◌, All, length, true};
ghost use Rattle.viz_strip_write.specs.StripText.{IsFlat};

use viz_sheet::{Mesh, Sheet};

// All names are of one leaf.
fn has_leaves(sheet: &Sheet) -> bool
    ensures { result ≡ true → All (λ name. length name ≡ 1) sheet.now.names }
{
    sheet.leaves().size() == 1
}

// No cell has more than three points.
fn is_small(sheet: &Sheet) -> bool
    ensures { result ≡ true → All (λ cell. length cell ≤ 3) sheet.now.cells }
{
    for i in 0..sheet.cell_count() {
        if sheet.cell(i).len() > 3 {
            return false;
        }
    }
    true
}

// One sheet of leaves without tetrahedra.
pub(crate) fn is_flat(mesh: &Mesh) -> bool
    ensures { result ≡ true → IsFlat mesh.now }
{
    let sheets = mesh.sheets();
    sheets.len() == 1 && has_leaves(&sheets[0]) && is_small(&sheets[0])
}
