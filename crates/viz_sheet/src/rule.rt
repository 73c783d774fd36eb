//! The test of names, points and cells by ranks that a sheet can be made of.

ghost use Rattle.std.specs.Prelude.{◌≡◌, ◌↔◌, ◌<◌, ◌≤◌, ◌^◌, All, IsTrue};
ghost use Rattle.std.specs.Cmp.Lexicographic.{slice_cmp};
ghost use Rattle.std.specs.Ordering.{is_lt, nat_cmp};
ghost use Rattle.viz_sheet.specs.Arrays.{names_in, points_in, ranks_in};
ghost use Rattle.viz_sheet.specs.Ranked.{AreCells, IsCell};
ghost use Rattle.viz_sheet.specs.Sheet.{AreApart, AreAscending};

use crate::leaves::Leaves;
use crate::places::Places;
use crate::ranks::Ranks;

/// Names ascend, each has a point, and cells have 1 to 4 different ranks of them. It is what
/// `compacted` and `sheet_of` need.
pub fn are_cells(leaves: &Leaves, places: &Places, ranks: &Ranks) -> bool
    ensures value { IsTrue result ↔
        AreCells (names_in leaves.now) (points_in places.now) (ranks_in ranks.now) }
{
    let count = leaves.len();
    places.len() == count && is_few(count) && are_ascending(leaves) && each_is_cell(count, ranks)
}

/// So many names have ranks of 32 bits.
fn is_few(count: usize) -> bool
    ensures { IsTrue result ↔ (count ≤ 2 ^ 32) }
{
    count as u64 <= 1 << 32
}

/// The names ascend.
fn are_ascending(leaves: &Leaves) -> bool
    ensures { IsTrue result ↔ AreAscending (names_in leaves.now) }
{
    for rank in 1..leaves.len() {
        if !is_before(leaves.get(rank - 1), leaves.get(rank)) {
            return false;
        }
    }
    true
}

/// A name comes before another one.
fn is_before(a: &[u32], b: &[u32]) -> bool
    ensures { result ≡ is_lt (slice_cmp nat_cmp a.now b.now) }
{
    a.cmp(b).is_lt()
}

/// Each of these is a cell by ranks below the count.
fn each_is_cell(count: usize, ranks: &Ranks) -> bool
    ensures { IsTrue result ↔ All (IsCell count) (ranks_in ranks.now) }
{
    for i in 0..ranks.len() {
        if !is_cell(count, ranks.get(i)) {
            return false;
        }
    }
    true
}

/// A cell has 1 to 4 different ranks below the count.
pub fn is_cell(count: usize, cell: &[u32]) -> bool
    ensures value { IsTrue result ↔ IsCell count cell.now }
{
    !cell.is_empty() && cell.len() <= 4 && are_below(count, cell) && are_apart(cell)
}

/// Each rank is below the count.
fn are_below(count: usize, cell: &[u32]) -> bool
    ensures { IsTrue result ↔ All (λ r. r < count) cell.now }
{
    for rank in cell {
        if *rank as usize >= count {
            return false;
        }
    }
    true
}

/// No two ranks are the same.
fn are_apart(cell: &[u32]) -> bool
    ensures { IsTrue result ↔ AreApart cell.now }
{
    match cell {
        [] => true,
        [first, others @ ..] => !others.contains(first) && are_apart(others),
    }
}
