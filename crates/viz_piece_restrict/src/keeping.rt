//! The sheet of marked cells.

ghost use Rattle.std.specs.Prelude.{◌≡◌, ◌≤◌, IfOk, length, slice_index_or};
ghost use Rattle.viz_sheet.specs.Arrays.{ranks_in};
ghost use Rattle.viz_sheet.specs.Kept.{kept, kept_rank};
ghost use Rattle.viz_piece_restrict.specs.Steps.Cuts.{IsKeptSheet};

use std::alloc::{AllocError, Global};
use viz_sheet::{Mixed, Ranks, Sheet, compacted};

/// The sheet of the marked cells, with the points of their names.
pub(crate) fn kept_sheet(alloc: Global, sheet: &Sheet, keeps: &[bool]) -> Result<Sheet, AllocError>
    requires { length keeps.now ≡ length sheet.now.cells }
    ensures { IfOk result (IsKeptSheet sheet.now keeps.now) }
{
    let ranks = sheet.ranks();
    let cells = kept_cells(alloc, keeps, ranks)?;
    let made = compacted(alloc, sheet.leaves(), sheet.places(), &cells)?;
    sheet.known();
    made.known();
    Ok(made)
}

/// The marked cells, in the array of their type.
fn kept_cells(alloc: Global, keeps: &[bool], ranks: &Ranks) -> Result<Ranks, AllocError>
    requires { length keeps.now ≡ length (ranks_in ranks.now) }
    ensures { IfOk result (λ r. ranks_in r ≡ kept keeps.now (ranks_in ranks.now)) }
{
    match ranks {
        Ranks::Vertices(cells) => Ok(Ranks::Vertices(kept_items(alloc, keeps, cells)?)),
        Ranks::Lines(cells) => Ok(Ranks::Lines(kept_items(alloc, keeps, cells)?)),
        Ranks::Triangles(cells) => Ok(Ranks::Triangles(kept_items(alloc, keeps, cells)?)),
        Ranks::Tetrahedra(cells) => Ok(Ranks::Tetrahedra(kept_items(alloc, keeps, cells)?)),
        Ranks::Any(cells) => Ok(Ranks::Any(kept_mixed(alloc, keeps, cells)?)),
    }
}

/// The marked items.
#[tactic(auto, using(viz_sheet::proofs::KeptLemmas::more))]
pub(crate) fn kept_items<T: Copy + Drop>(
    alloc: Global,
    keeps: &[bool],
    items: &[T],
) -> Result<Vec<T>, AllocError>
    requires { length keeps.now ≡ length items.now }
    ensures { IfOk result (λ v. v.items ≡ kept keeps.now items.now) }
{
    let mut left = Vec::with_capacity(alloc, kept_count(keeps))?;
    for (i, item) in items.iter().enumerate() {
        if keeps[i] {
            left.push(*item)?;
        }
    }
    Ok(left)
}

/// The marked cells among cells of any size.
#[tactic(auto, using(viz_sheet::proofs::KeptLemmas::more))]
fn kept_mixed(alloc: Global, keeps: &[bool], cells: &[Mixed]) -> Result<Vec<Mixed>, AllocError>
    requires { length keeps.now ≡ length cells.now }
    ensures { IfOk result (λ v. v.items ≡ kept keeps.now cells.now) }
{
    let mut left = Vec::with_capacity(alloc, kept_count(keeps))?;
    for (i, cell) in cells.iter().enumerate() {
        if keeps[i] {
            left.push(copy_of(cell))?;
        }
    }
    Ok(left)
}

/// How many items are marked.
#[tactic(auto, using(viz_sheet::proofs::KeptLemmas::more))]
fn kept_count(marks: &[bool]) -> usize
    ensures { result ≡ kept_rank marks.now (length marks.now) }
{
    let mut count = 0;
    for mark in marks {
        if *mark {
            count += 1;
        }
    }
    count
}

/// A cell of the same ranks.
fn copy_of(cell: &Mixed) -> Mixed
    ensures { result ≡ cell.now }
{
    mixed_of(cell.ranks())
}

/// The cell of up to 4 ranks.
fn mixed_of(ranks: &[u32]) -> Mixed
    requires { length ranks.now ≤ 4 }
    ensures { result ≡ ranks.now }
{
    let four = [
        rank_at(ranks, 0),
        rank_at(ranks, 1),
        rank_at(ranks, 2),
        rank_at(ranks, 3),
    ];
    Mixed::new(ranks.len() as u8, four)
}

/// The rank at an index, and filler behind the last one.
fn rank_at(ranks: &[u32], i: usize) -> u32
    ensures { result ≡ slice_index_or ranks.now i 0 }
{
    match ranks.get(i) {
        Some(rank) => *rank,
        None => 0,
    }
}
