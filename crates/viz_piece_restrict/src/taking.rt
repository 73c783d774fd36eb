//! Cells that come in with the next ghost level.

ghost use Rattle.std.specs.Prelude.{◌≡◌, ◌<◌, ◌||◌, true, false, All, cond, length, slice_set};
ghost use Rattle.viz_sheet.specs.Arrays.{ranks_in};
ghost use Rattle.viz_piece_restrict.specs.Steps.Levels.{AreGrownTo, AreSameLevels, is_any_marked};

use crate::cell::RankCell;
use viz_sheet::Ranks;

/// Takes in each cell that isn't there and has a marked rank, with one level. Says whether there
/// was one.
pub(crate) fn take_level(
    ranks: &Ranks,
    marks: &[bool],
    there: &mut [bool],
    levels: &mut [u32],
    level: u32,
) -> bool
    requires below { All (All (λ r. r < length marks.now)) (ranks_in ranks.now) }
    requires there { length there.old ≡ length (ranks_in ranks.now) }
    requires levels { length levels.old ≡ length (ranks_in ranks.now) }
    ensures grown { AreGrownTo (λ cell. cell) (length (ranks_in ranks.now)) (ranks_in ranks.now)
        marks.now level there.old levels.old there.new levels.new }
    ensures none { result ≡ false
        → AreSameLevels there.old levels.old there.new levels.new }
{
    match ranks {
        Ranks::Vertices(cells) => take_cells(cells, marks, there, levels, level),
        Ranks::Lines(cells) => take_cells(cells, marks, there, levels, level),
        Ranks::Triangles(cells) => take_cells(cells, marks, there, levels, level),
        Ranks::Tetrahedra(cells) => take_cells(cells, marks, there, levels, level),
        Ranks::Any(cells) => take_cells(cells, marks, there, levels, level),
    }
}

/// The same of cells of one type.
fn take_cells<C: RankCell>(
    cells: &[C],
    marks: &[bool],
    there: &mut [bool],
    levels: &mut [u32],
    level: u32,
) -> bool
    requires below { All (λ cell. All (λ r. r < length marks.now) (C.ranks cell)) cells.now }
    requires there { length there.old ≡ length cells.now }
    requires levels { length levels.old ≡ length cells.now }
    ensures grown { AreGrownTo C.ranks (length cells.now) cells.now marks.now level
        there.old levels.old there.new levels.new }
    ensures none { result ≡ false
        → AreSameLevels there.old levels.old there.new levels.new }
{
    let mut some = false;
    for (i, cell) in cells.iter().enumerate() {
        let comes = comes_in(there[i], marks, cell.listed());
        take_if(there, levels, i, comes, level);
        some = is_either(some, comes);
    }
    some
}

/// Whether a cell that isn't there has a marked rank.
fn comes_in(there: bool, marks: &[bool], cell: &[u32]) -> bool
    requires { All (λ r. r < length marks.now) cell.now }
    ensures { result ≡ cond there false (is_any_marked marks.now cell.now) }
{
    if there {
        return false;
    }
    is_any_marked(marks, cell)
}

/// Whether some rank of a cell is marked.
fn is_any_marked(marks: &[bool], cell: &[u32]) -> bool
    requires { All (λ r. r < length marks.now) cell.now }
    ensures { result ≡ is_any_marked marks.now cell.now }
{
    cell.iter().any(|rank| marks[*rank as usize])
}

/// Whether one of two is true.
fn is_either(one: bool, other: bool) -> bool
    ensures { result ≡ (one || other) }
{
    one || other
}

/// Takes a cell in with a level, if it comes.
fn take_if(there: &mut [bool], levels: &mut [u32], i: usize, comes: bool, level: u32)
    requires there { i < length there.old }
    requires levels { i < length levels.old }
    ensures there { there.new ≡ cond comes (slice_set there.old i true) there.old }
    ensures levels { levels.new ≡ cond comes (slice_set levels.old i level) levels.old }
{
    if comes {
        there[i] = true;
        levels[i] = level;
    }
}
