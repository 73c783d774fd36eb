//! What filters ask of a part.

ghost use Rattle.std.specs.Prelude.{◌≡◌, ◌≤◌, All, IfSome, IsTrue, length};
ghost use Rattle.viz_piece_divisions.specs.Answers.{IsFitPart, IsOfMesh};
ghost use Rattle.viz_sheet.specs.Sheet.{IsFit, most_names};

use viz_parts::{Part, PartSheet};
use viz_sheet::Sheet;

/// The part, where it is one of a mesh.
pub fn of_mesh(part: Part) -> Option<Part>
    ensures mesh { IfSome result IsOfMesh }
{
    match part {
        Part::Mesh(sheets) => Some(Part::Mesh(sheets)),
        Part::Image(_) => None,
    }
}

/// Each sheet of a part fits, as a section needs.
pub fn is_fit_part(part: &Part) -> bool
    ensures fit { IsTrue result → IsFitPart part.now }
{
    match part {
        Part::Mesh(parts) => are_fit(parts),
        Part::Image(_) => false,
    }
}

/// The sheet of each of them fits.
fn are_fit(parts: &[PartSheet]) -> bool
    ensures { IsTrue result → All (λ p. IsFit p.sheet) parts.now }
{
    for part in parts {
        if !is_fit(part.sheet()) {
            return false;
        }
    }
    true
}

/// No cell has more names than the length of names allows.
fn is_fit(sheet: &Sheet) -> bool
    ensures { IsTrue result → IsFit sheet.now }
{
    let most = most_names(sheet.leaves().size());
    for i in 0..sheet.cell_count() {
        if sheet.cell(i).len() > most {
            return false;
        }
    }
    true
}

/// How many names a cell may have, by how many leaves they have.
fn most_names(leaves: usize) -> usize
    ensures { result ≡ most_names leaves }
{
    if leaves == 1 {
        4
    } else if leaves == 2 {
        3
    } else if leaves == 4 {
        2
    } else {
        1
    }
}
