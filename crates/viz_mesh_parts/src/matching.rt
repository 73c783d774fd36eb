//! Cells of one sheet found again in another, one after the other.

ghost use Rattle.std.specs.Prelude.{◌≡◌, ◌≤◌, ◌<◌, ◌↔◌, [], ◌∷◌, All, IsTrue, length, map};
ghost use Rattle.std.specs.Prelude.{slice_index_or};
ghost use Rattle.viz_mesh_meaning.specs.Facets.{facets_of};
ghost use Rattle.viz_sheet.specs.Ranked.{names_at};
ghost use Rattle.viz_mesh_parts.specs.Steps.{IsNext, IsStep, Passes};

use viz_sheet::Sheet;

/// The place behind a cell, by the ranks of another sheet, if it is the one at this place.
pub(crate) fn step(made: &Sheet, at: usize, sheet: &Sheet, cell: &[u32]) -> usize
    requires below { All (λ r. r < length sheet.now.names) cell.now }
    ensures value { IsStep made.now.cells at (names_at sheet.now.names cell.now) result }
    ensures rises { at ≤ result }
{
    if at < made.cell_count() && is_same_cell(made, made.cell(at), sheet, cell) {
        at + 1
    } else {
        at
    }
}

/// Two cells of two sheets have the same names.
fn is_same_cell(a: &Sheet, xs: &[u32], b: &Sheet, ys: &[u32]) -> bool
    requires left { All (λ r. r < length a.now.names) xs.now }
    requires right { All (λ r. r < length b.now.names) ys.now }
    ensures { IsTrue result ↔ (names_at a.now.names xs.now ≡ names_at b.now.names ys.now) }
{
    if xs.len() != ys.len() {
        return false;
    }
    for (i, rank) in xs.iter().enumerate() {
        if a.name(*rank as usize) != b.name(ys[i] as usize) {
            return false;
        }
    }
    true
}

/// The place behind those facets of a cell that are the next cells.
pub(crate) fn pass_facets(made: &Sheet, at: usize, sheet: &Sheet, cell: &[u32]) -> usize
    requires below { All (λ r. r < length sheet.now.names) cell.now }
    requires most { length cell.now ≤ 4 }
    ensures value { Passes made.now.cells at
        (map (names_at sheet.now.names) (facets_of cell.now)) result }
    ensures rises { at ≤ result }
{
    match cell {
        [a, b] => pass_two(made, at, sheet, *a, *b),
        [a, b, c] => pass_three(made, at, sheet, *a, *b, *c),
        [a, b, c, d] => pass_four(made, at, sheet, *a, *b, *c, *d),
        _ => at,
    }
}

/// The same of the ends of a line.
fn pass_two(made: &Sheet, at: usize, sheet: &Sheet, a: u32, b: u32) -> usize
    requires below { All (λ r. r < length sheet.now.names) (a ∷ b ∷ []) }
    ensures value { Passes made.now.cells at
        (map (names_at sheet.now.names) (facets_of (a ∷ b ∷ []))) result }
    ensures rises { at ≤ result }
{
    let first = step(made, at, sheet, &[b]);
    step(made, first, sheet, &[a])
}

/// The same of the sides of a triangle.
fn pass_three(made: &Sheet, at: usize, sheet: &Sheet, a: u32, b: u32, c: u32) -> usize
    requires below { All (λ r. r < length sheet.now.names) (a ∷ b ∷ c ∷ []) }
    ensures value { Passes made.now.cells at
        (map (names_at sheet.now.names) (facets_of (a ∷ b ∷ c ∷ []))) result }
    ensures rises { at ≤ result }
{
    let first = step(made, at, sheet, &[b, c]);
    let second = step(made, first, sheet, &[c, a]);
    step(made, second, sheet, &[a, b])
}

/// The same of the sides of a tetrahedron.
fn pass_four(made: &Sheet, at: usize, sheet: &Sheet, a: u32, b: u32, c: u32, d: u32) -> usize
    requires below { All (λ r. r < length sheet.now.names) (a ∷ b ∷ c ∷ d ∷ []) }
    ensures value { Passes made.now.cells at
        (map (names_at sheet.now.names) (facets_of (a ∷ b ∷ c ∷ d ∷ []))) result }
    ensures rises { at ≤ result }
{
    let first = step(made, at, sheet, &[b, c, d]);
    let second = step(made, first, sheet, &[c, a, d]);
    let third = step(made, second, sheet, &[a, b, d]);
    step(made, third, sheet, &[b, a, c])
}
