//! A plain slow program: whether a part is a piece of what is made of a whole. It goes by the
//! definition alone: cells by names, own cells by what they are made of, levels by the rule of
//! steps.

use std::alloc::{AllocError, Global};
use viz_parts::{Part, PartSheet};
use viz_sheet::Sheet;

/// A piece of what a filter makes.
#[derive(Clone, Copy, Debug)]
pub struct Piece {
    pub p: u32,
    pub n: u32,
    pub ghosts: u32,
    /// How many cells of an input go to one piece together: 1 of a mesh, a layer's of an image.
    pub unit: u32,
    /// How many corners fewer a made cell names than the cell that it is made of: 1 of facets.
    pub fewer: usize,
}

/// Whether a part is a piece of what is made of an input, of which all sheets follow each other
/// again and again. Both are given whole. Names of the input have one leaf.
pub fn is_piece(
    alloc: Global,
    input: &Part,
    made: &Part,
    part: &Part,
    piece: Piece,
) -> Result<bool, AllocError> {
    let parts = sheets_in(part);
    if parts.len() != sheets_in(made).len() {
        return Ok(false);
    }
    for (k, (whole, part)) in sheets_in(made).iter().zip(parts).enumerate() {
        match input_at(sheets_in(input), k) {
            Some(input) if is_sheet_piece(alloc, input, whole.sheet(), part, piece)? => (),
            _ => return Ok(false),
        }
    }
    Ok(true)
}

/// The sheets of a mesh's part.
fn sheets_in(part: &Part) -> &[PartSheet] {
    match part {
        Part::Mesh(sheets) => sheets,
        Part::Image(_) => &[],
    }
}

/// The input of the made sheet at this place.
fn input_at(inputs: &[PartSheet], k: usize) -> Option<&Sheet> {
    let turn = k.checked_rem(inputs.len())?;
    Some(inputs.get(turn)?.sheet())
}

/// The same of one sheet.
fn is_sheet_piece(
    alloc: Global,
    input: &Sheet,
    whole: &Sheet,
    part: &PartSheet,
    piece: Piece,
) -> Result<bool, AllocError> {
    let ranks = ranks_in(alloc, whole, part.sheet())?;
    let levels = levels_in(alloc, whole, part, &ranks)?;
    let owns = owns_in(alloc, input, whole, piece)?;
    Ok(
        count_some(&levels) == part.sheet().cell_count()
            && are_levels(&levels, &owns, piece.ghosts)
            && are_near(whole, &levels, piece.ghosts),
    )
}

/// The rank that each point of a part has in the whole, past all ranks where the whole hasn't it.
fn ranks_in(alloc: Global, whole: &Sheet, part: &Sheet) -> Result<Vec<u32>, AllocError> {
    let mut ranks = Vec::with_capacity(alloc, part.point_count())?;
    for rank in 0..part.point_count() {
        ranks.push(rank_in(whole, part, rank))?;
    }
    Ok(ranks)
}

/// The rank of one point.
fn rank_in(whole: &Sheet, part: &Sheet, rank: usize) -> u32 {
    for other in 0..whole.point_count() {
        if is_same_point(whole, other, part, rank) {
            return u32::try_from(other).unwrap_or(u32::MAX);
        }
    }
    u32::MAX
}

/// Two points have the same name, and lie at the same place with the same scalar.
fn is_same_point(a: &Sheet, i: usize, b: &Sheet, j: usize) -> bool {
    i < a.point_count() && j < b.point_count() && a.name(i) == b.name(j) && a.point(i) == b.point(j)
}

/// The level of each cell of the whole in a part, none where the part hasn't the cell.
fn levels_in(
    alloc: Global,
    whole: &Sheet,
    part: &PartSheet,
    ranks: &[u32],
) -> Result<Vec<Option<u32>>, AllocError> {
    let mut next: usize = 0;
    let mut levels = Vec::with_capacity(alloc, whole.cell_count())?;
    for i in 0..whole.cell_count() {
        if is_same_cell(cell_at(whole, i), cell_at(part.sheet(), next), ranks) {
            levels.push(level_at(part, next))?;
            next = next.saturating_add(1);
        } else {
            levels.push(None)?;
        }
    }
    Ok(levels)
}

/// The ranks of a cell, if there is one.
fn cell_at(sheet: &Sheet, i: usize) -> &[u32] {
    if i < sheet.cell_count() {
        sheet.cell(i)
    } else {
        &[]
    }
}

/// The level of a cell, if there is one.
fn level_at(part: &PartSheet, i: usize) -> Option<u32> {
    if i < part.sheet().cell_count() {
        Some(part.level(i))
    } else {
        None
    }
}

/// A cell of the whole has the points of a part's cell, in the same order.
fn is_same_cell(cell: &[u32], other: &[u32], ranks: &[u32]) -> bool {
    for (rank, own) in cell.iter().zip(other) {
        match ranks.get(*own as usize) {
            Some(there) if there == rank => (),
            _ => return false,
        }
    }
    cell.len() == other.len()
}

/// How many levels there are.
fn count_some(levels: &[Option<u32>]) -> usize {
    let mut count: usize = 0;
    for level in levels {
        if level.is_some() {
            count = count.saturating_add(1);
        }
    }
    count
}

/// Just the own cells have level 0, and no level is past the last.
fn are_levels(levels: &[Option<u32>], owns: &[bool], ghosts: u32) -> bool {
    for (level, own) in levels.iter().zip(owns) {
        if (*level == Some(0)) != *own || !is_up_to(*level, ghosts) && level.is_some() {
            return false;
        }
    }
    levels.len() == owns.len()
}

/// A cell is there, with a level of at most so much.
fn is_up_to(level: Option<u32>, most: u32) -> bool {
    match level {
        Some(level) => level <= most,
        None => false,
    }
}

/// What meets a cell of a level before the last is there, at most one level further.
fn are_near(whole: &Sheet, levels: &[Option<u32>], ghosts: u32) -> bool {
    for (i, level) in levels.iter().enumerate() {
        match level {
            Some(level) if *level < ghosts => {
                if !is_surrounded(whole, levels, cell_at(whole, i), *level) {
                    return false;
                }
            }
            _ => (),
        }
    }
    true
}

/// What meets one cell is there, at most one level further.
fn is_surrounded(whole: &Sheet, levels: &[Option<u32>], cell: &[u32], level: u32) -> bool {
    for (j, other) in levels.iter().enumerate() {
        if meet(cell, cell_at(whole, j)) && !is_up_to(*other, level.saturating_add(1)) {
            return false;
        }
    }
    true
}

/// Two cells share a point.
fn meet(cell: &[u32], other: &[u32]) -> bool {
    for rank in cell {
        if other.contains(rank) {
            return true;
        }
    }
    false
}

/// Which cells of what is made are the piece's own: those that are made of its own cells.
fn owns_in(
    alloc: Global,
    input: &Sheet,
    made: &Sheet,
    piece: Piece,
) -> Result<Vec<bool>, AllocError> {
    let parents = all_leaves(alloc, input)?;
    let mut owns = Vec::with_capacity(alloc, made.cell_count())?;
    for i in 0..made.cell_count() {
        let leaves = leaves_of(alloc, made, cell_at(made, i))?;
        owns.push(is_own(&parents, &leaves, piece))?;
    }
    Ok(owns)
}

/// The leaves of each cell.
fn all_leaves(alloc: Global, sheet: &Sheet) -> Result<Vec<Vec<u32>>, AllocError> {
    let mut all = Vec::with_capacity(alloc, sheet.cell_count())?;
    for i in 0..sheet.cell_count() {
        all.push(leaves_of(alloc, sheet, cell_at(sheet, i))?)?;
    }
    Ok(all)
}

/// The leaves of one cell's names, each once.
fn leaves_of(alloc: Global, sheet: &Sheet, cell: &[u32]) -> Result<Vec<u32>, AllocError> {
    let mut leaves = Vec::new(alloc);
    for rank in cell {
        for leaf in name_at(sheet, *rank as usize) {
            if !leaves.contains(leaf) {
                leaves.push(*leaf)?;
            }
        }
    }
    Ok(leaves)
}

/// The leaves of a point's name, if there is one.
fn name_at(sheet: &Sheet, rank: usize) -> &[u32] {
    if rank < sheet.point_count() {
        sheet.name(rank)
    } else {
        &[]
    }
}

/// The cell that a made cell with these leaves is made of is the piece's own.
fn is_own(parents: &[Vec<u32>], leaves: &[u32], piece: Piece) -> bool {
    for (j, parent) in parents.iter().enumerate() {
        if is_parent(parent, leaves, piece.fewer) {
            return is_own_cell(narrow(parents.len()), narrow(j), piece);
        }
    }
    false
}

/// A cell has all of these leaves, and so many more.
fn is_parent(parent: &[u32], leaves: &[u32], more: usize) -> bool {
    for leaf in leaves {
        if !parent.contains(leaf) {
            return false;
        }
    }
    parent.len() == leaves.len().saturating_add(more)
}

/// The cell of an input, of so many, is the piece's own.
fn is_own_cell(count: u32, j: u32, piece: Piece) -> bool {
    let units = count.checked_div(piece.unit).unwrap_or(0);
    let unit = j.checked_div(piece.unit).unwrap_or(0);
    let next = begin(units, piece.p.saturating_add(1), piece.n);
    begin(units, piece.p, piece.n) <= unit && unit < next
}

/// Where share `p` of `n` of so many begins.
fn begin(count: u32, p: u32, n: u32) -> u32 {
    p.saturating_mul(count).checked_div(n).unwrap_or(0)
}

/// A number in 32 bits.
fn narrow(n: usize) -> u32 {
    u32::try_from(n).unwrap_or(u32::MAX)
}
