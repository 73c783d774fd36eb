//! Pieces of a sheet that is there as a whole.

ghost use Rattle.std.specs.Prelude.{◌≡◌, ◌+◌, ◌++◌, ◌<◌, ◌≤◌, IfOk, length, replicate};
ghost use Rattle.viz_extent.specs.Slabs.{share_begin};
ghost use Rattle.viz_parts.specs.Pieces.{IsSheetPart, own_range, own_share};
ghost use Rattle.viz_piece_restrict.specs.Restricting.{IsGrownPart};

use crate::growth::levels_around;
use crate::keeping::{kept_items, kept_sheet};
use std::alloc::{AllocError, Global};
use viz_parts::PartSheet;
use viz_sheet::Sheet;

/// The piece of a sheet whose own cells are marked, with the cells around them up to so many steps,
/// a step going between cells that share a name.
///
/// Each ghost level takes two passes over the cells; growth ends with the first level that has
/// none.
pub fn piece_of(
    alloc: Global,
    sheet: &Sheet,
    own: Vec<bool>,
    ghosts: u32,
) -> Result<PartSheet, AllocError>
    requires matched { length own.items ≡ length sheet.now.cells }
    ensures ok { IfOk result (IsGrownPart sheet.now own.items ghosts) }
{
    let around = levels_around(alloc, sheet, own, ghosts)?;
    let cut = kept_sheet(alloc, sheet, &around.there)?;
    let levels = kept_items(alloc, &around.there, &around.levels)?;
    Ok(PartSheet::new(cut, levels))
}

/// Piece `p` of `n` of a sheet, whose cells are shared out in turn.
pub(crate) fn piece_in_turn(
    alloc: Global,
    sheet: &Sheet,
    p: u32,
    n: u32,
    ghosts: u32,
) -> Result<PartSheet, AllocError>
    requires { p < n }
    ensures { IfOk result (IsSheetPart sheet.now (own_share p n (length sheet.now.cells)) ghosts) }
{
    let count = sheet.cell_count();
    let own = range_marks(alloc, count, begin(count, p, n), next_begin(count, p, n))?;
    piece_of(alloc, sheet, own, ghosts)
}

/// Where the share of piece `p` of `n` begins.
fn begin(count: usize, p: u32, n: u32) -> usize
    requires { p < n }
    ensures value { result ≡ share_begin n count p }
    ensures most { result ≤ count }
{
    let begin = u128::from(p) * count as u128 / u128::from(n);
    begin as usize
}

/// Where the share of the piece after it begins.
fn next_begin(count: usize, p: u32, n: u32) -> usize
    requires { p < n }
    ensures value { result ≡ share_begin n count (p + 1) }
    ensures most { result ≤ count }
{
    let begin = (u128::from(p) + 1) * count as u128 / u128::from(n);
    begin as usize
}

/// Marks of so many cells, of which those from one to before another are marked.
fn range_marks(
    alloc: Global,
    count: usize,
    first: usize,
    next: usize,
) -> Result<Vec<bool>, AllocError>
    requires rises { first ≤ next }
    requires within { next ≤ count }
    ensures { IfOk result (λ v. v.items ≡ own_range count first next) }
{
    let mut marks = Vec::with_capacity(alloc, count)?;
    push_copies(&mut marks, first, false)?;
    push_copies(&mut marks, next - first, true)?;
    push_copies(&mut marks, count - next, false)?;
    Ok(marks)
}

/// Adds so many equal marks.
fn push_copies(marks: &mut Vec<bool>, count: usize, mark: bool) -> Result<(), AllocError>
    ensures { IfOk result (λ _. marks.new.items ≡ marks.old.items ++ replicate count mark) }
{
    for _k in 0..count {
        marks.push(mark)?;
    }
    Ok(())
}
