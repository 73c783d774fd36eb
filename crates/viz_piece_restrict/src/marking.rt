//! Marks of the ranks of cells that came in last.

ghost use Rattle.std.specs.Prelude.{◌≡◌, ◌<◌, ◌↔◌, [], true, All, cond, length};
ghost use Rattle.viz_sheet.specs.Arrays.{ranks_in};
ghost use Rattle.viz_sheet.specs.Steps.Marking.{IsMarkedBy};
ghost use Rattle.viz_piece_restrict.specs.Steps.Levels.{AreMarkedTo};

use crate::cell::RankCell;
use viz_sheet::Ranks;

/// Marks the ranks of the cells that are there with one level.
pub(crate) fn mark_level(
    marks: &mut [bool],
    ranks: &Ranks,
    there: &[bool],
    levels: &[u32],
    level: u32,
)
    requires below { All (All (λ r. r < length marks.old)) (ranks_in ranks.now) }
    requires there { length there.now ≡ length (ranks_in ranks.now) }
    requires levels { length levels.now ≡ length (ranks_in ranks.now) }
    ensures { AreMarkedTo (λ cell. cell) (length (ranks_in ranks.now)) (ranks_in ranks.now)
        there.now levels.now level marks.old marks.new }
{
    match ranks {
        Ranks::Vertices(cells) => mark_cells(marks, cells, there, levels, level),
        Ranks::Lines(cells) => mark_cells(marks, cells, there, levels, level),
        Ranks::Triangles(cells) => mark_cells(marks, cells, there, levels, level),
        Ranks::Tetrahedra(cells) => mark_cells(marks, cells, there, levels, level),
        Ranks::Any(cells) => mark_cells(marks, cells, there, levels, level),
    }
}

/// The same of cells of one type.
fn mark_cells<C: RankCell>(
    marks: &mut [bool],
    cells: &[C],
    there: &[bool],
    levels: &[u32],
    level: u32,
)
    requires below { All (λ cell. All (λ r. r < length marks.old) (C.ranks cell)) cells.now }
    requires there { length there.now ≡ length cells.now }
    requires levels { length levels.now ≡ length cells.now }
    ensures { AreMarkedTo C.ranks (length cells.now) cells.now there.now levels.now level
        marks.old marks.new }
{
    for (i, cell) in cells.iter().enumerate() {
        mark_if(marks, is_at(there[i], levels[i], level), cell.listed());
    }
}

/// Whether a cell is there with one level.
fn is_at(there: bool, level: u32, wanted: u32) -> bool
    ensures { (result ≡ true) ↔ ((there ≡ true) × (level ≡ wanted)) }
{
    there && level == wanted
}

/// Marks the ranks of a cell, if it is wanted.
#[tactic(auto, using(viz_sheet::proofs::MarkingLemmas::none_marked))]
fn mark_if(marks: &mut [bool], wanted: bool, cell: &[u32])
    requires { All (λ r. r < length marks.old) cell.now }
    ensures { IsMarkedBy marks.old (cond wanted cell.now []) marks.new }
{
    if wanted {
        mark_cell(marks, cell);
    }
}

/// Marks the ranks of a cell.
fn mark_cell(marks: &mut [bool], cell: &[u32])
    requires { All (λ r. r < length marks.old) cell.now }
    ensures { IsMarkedBy marks.old cell.now marks.new }
{
    for rank in cell {
        marks[*rank as usize] = true;
    }
}
