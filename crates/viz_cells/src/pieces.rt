//! The cells of a section, cell by cell, by the keys of their ends.
ghost use Rattle.std.specs.Prelude.{◌≡◌, ◌-◌, ◌<◌, ◌≤◌, ◌^◌, ◌++◌, [], ◌∷◌, All, IfOk, OnOk};
ghost use Rattle.std.specs.Prelude.{length, slice_index};
ghost use Rattle.viz_sheet.specs.Arrays.{ranks_in};
ghost use Rattle.viz_sheet.specs.Ranked.{IsCell};
ghost use Rattle.viz_cells.specs.Steps.Keys.{key_of};
ghost use Rattle.viz_cells.specs.Steps.Pieces.{corner_mask, held, held_from, keys_in, number_key};
ghost use Rattle.viz_cells.specs.Steps.Pieces.{pieces_of};

use crate::key::key;
use crate::piece::Piece;
use std::alloc::{AllocError, Global};
use viz_fraction::{Case, cells_of};
use viz_sheet::Ranks;

/// The cells in all cells, by which points are inside.
pub fn pieces(alloc: Global, inside: &[bool], ranks: &Ranks) -> Result<Vec<Piece>, AllocError>
    requires cells { All (IsCell (length inside.now)) (ranks_in ranks.now) }
    ensures value { IfOk result (λ v. v.items ≡ pieces_of inside.now (ranks_in ranks.now)) }
{
    let mut out = Vec::new(alloc);
    for i in 0..ranks.len() {
        push_cell(&mut out, inside, ranks.get(i))?;
    }
    Ok(out)
}

/// Adds the cells in one cell.
fn push_cell(out: &mut Vec<Piece>, inside: &[bool], cell: &[u32]) -> Result<(), AllocError>
    requires cell { IsCell (length inside.now) cell.now }
    ensures { OnOk result (out.new.items ≡ out.old.items ++ keys_in inside.now cell.now) }
{
    let case = cells_of(cell.len() as u8, mask(inside, cell));
    push_case(out, cell, &case)?;
    Ok(())
}

/// Which corners of a cell are inside, the first one's bit lowest.
fn mask(inside: &[bool], cell: &[u32]) -> u8
    requires cell { IsCell (length inside.now) cell.now }
    ensures value { result ≡ corner_mask inside.now cell.now }
    ensures below { result < 2 ^ length cell.now }
{
    let a = bit(inside, cell, 0);
    let b = bit(inside, cell, 1);
    let c = bit(inside, cell, 2);
    let d = bit(inside, cell, 3);
    a + 2 * (b + 2 * (c + 2 * d))
}

/// 1 where a cell has such a corner and it is inside.
fn bit(inside: &[bool], cell: &[u32], corner: usize) -> u8
    requires below { All (λ r. r < length inside.now) cell.now }
    ensures has { corner < length cell.now
        → result ≡ corner_mask inside.now (slice_index cell.now corner ∷ []) }
    ensures none { length cell.now ≤ corner → result ≡ 0 }
    ensures most { result ≤ 1 }
{
    if corner < cell.len() && inside[cell[corner] as usize] {
        1
    } else {
        0
    }
}

/// Adds the cells that a case holds.
fn push_case(out: &mut Vec<Piece>, cell: &[u32], case: &Case) -> Result<(), AllocError>
    requires size { case.now.size ≤ 3 }
    ensures { OnOk result (out.new.items ≡ out.old.items ++ held cell.now case.now) }
{
    let [a, b, c, d, e, f] = case.ends;
    if case.count == 0 {
        return Ok(());
    }
    out.push(piece(cell, case.size, a, b, c))?;
    if case.count == 1 {
        return Ok(());
    }
    out.push(piece(cell, case.size, d, e, f))?;
    Ok(())
}

/// The cell of the first so many of three ends.
fn piece(cell: &[u32], size: u8, p: [u8; 2], q: [u8; 2], r: [u8; 2]) -> Piece
    requires size { size ≤ 3 }
    ensures value { result ≡ held_from cell.now size p q r }
{
    Piece::new(size, [end_key(cell, p), end_key(cell, q), end_key(cell, r)])
}

/// The key of an end.
fn end_key(cell: &[u32], end: [u8; 2]) -> u64
    ensures value { result ≡ number_key cell.now end }
{
    let [i, j] = end;
    key(rank_at(cell, i), rank_at(cell, j))
}

/// The rank of a corner, and filler behind the last one.
fn rank_at(cell: &[u32], corner: u8) -> u32
    ensures { result ≡ slice_index cell.now corner }
{
    match cell.get(usize::from(corner)) {
        Some(rank) => *rank,
        None => 0,
    }
}
