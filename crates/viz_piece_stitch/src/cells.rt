//! The own cells of all parts, by ranks among all names.

ghost use Rattle.std.specs.Prelude.{◌≡◌, ◌<◌, ◌≤◌, ◌++◌, ◌∷◌, [], if◌then◌else◌, All, IfOk};
ghost use Rattle.std.specs.Prelude.{length, map};
ghost use Rattle.viz_parts.specs.Stitching.{own_items};
ghost use Rattle.viz_sheet.specs.Arrays.{ranks_in};
ghost use Rattle.viz_sheet.specs.Steps.Lookup.{looked_up};

use crate::cell::{RankCell, mixed_numbered, mixed_of};
use crate::shared_sheet::SharedSheet;
use std::alloc::{AllocError, Global};
use viz_parts::PartSheet;
use viz_sheet::{Mixed, Ranks};

/// No cells yet, with room for those of all parts, of the type of the first that there is.
pub(crate) fn no_cells(alloc: Global, parts: &[SharedSheet]) -> Result<Ranks, AllocError>
    ensures { IfOk result (λ r. ranks_in r ≡ []) }
{
    let room = cell_count(parts);
    for part in parts {
        let ranks = part.get().sheet().ranks();
        if ranks.len() > 0 {
            return of_type(alloc, room, ranks);
        }
    }
    Ok(Ranks::Triangles(Vec::new(alloc)))
}

/// How many cells the parts have in all; room is taken for so many.
fn cell_count(parts: &[SharedSheet]) -> usize {
    let mut count: usize = 0;
    for part in parts {
        count = count.saturating_add(part.get().sheet().cell_count());
    }
    count
}

/// No cells yet, with room for so many of the type of these.
fn of_type(alloc: Global, room: usize, ranks: &Ranks) -> Result<Ranks, AllocError>
    ensures { IfOk result (λ r. ranks_in r ≡ []) }
{
    match ranks {
        Ranks::Vertices(_) => Ok(Ranks::Vertices(Vec::with_capacity(alloc, room)?)),
        Ranks::Lines(_) => Ok(Ranks::Lines(Vec::with_capacity(alloc, room)?)),
        Ranks::Triangles(_) => Ok(Ranks::Triangles(Vec::with_capacity(alloc, room)?)),
        Ranks::Tetrahedra(_) => Ok(Ranks::Tetrahedra(Vec::with_capacity(alloc, room)?)),
        Ranks::Any(_) => Ok(Ranks::Any(Vec::with_capacity(alloc, room)?)),
    }
}

/// Cells with a part's own ones behind them, by the numbers of its names. They stay of one type as
/// long as all are.
#[tactic(auto, using(viz_sheet::proofs::LookupLemmas::as_it_is))]
pub(crate) fn with_own(
    alloc: Global,
    cells: Ranks,
    numbers: &[u32],
    ranks: &Ranks,
    part: &PartSheet,
) -> Result<Ranks, AllocError>
    requires below { All (All (λ r. r < length numbers.now)) (ranks_in ranks.now) }
    requires most { All (λ cell. length cell ≤ 4) (ranks_in ranks.now) }
    requires matched { length (ranks_in ranks.now) ≡ length part.now.sheet.cells }
    ensures { IfOk result (λ r. ranks_in r ≡ ranks_in cells
        ++ own_items (map (looked_up numbers.now) (ranks_in ranks.now)) part.now.levels) }
{
    if ranks.len() == 0 {
        return Ok(cells);
    }
    match cells {
        Ranks::Vertices(cells) => match ranks {
            Ranks::Vertices(own) => Ok(Ranks::Vertices(with_cells(cells, numbers, own, part)?)),
            _ => with_mixed(all_mixed(alloc, &cells)?, numbers, ranks, part),
        },
        Ranks::Lines(cells) => match ranks {
            Ranks::Lines(own) => Ok(Ranks::Lines(with_cells(cells, numbers, own, part)?)),
            _ => with_mixed(all_mixed(alloc, &cells)?, numbers, ranks, part),
        },
        Ranks::Triangles(cells) => match ranks {
            Ranks::Triangles(own) => Ok(Ranks::Triangles(with_cells(cells, numbers, own, part)?)),
            _ => with_mixed(all_mixed(alloc, &cells)?, numbers, ranks, part),
        },
        Ranks::Tetrahedra(cells) => match ranks {
            Ranks::Tetrahedra(own) => Ok(Ranks::Tetrahedra(with_cells(cells, numbers, own, part)?)),
            _ => with_mixed(all_mixed(alloc, &cells)?, numbers, ranks, part),
        },
        Ranks::Any(cells) => with_mixed(cells, numbers, ranks, part),
    }
}

/// Cells of one type with own ones of that type behind them.
fn with_cells<C: RankCell>(
    cells: Vec<C>,
    numbers: &[u32],
    ranks: &[C],
    part: &PartSheet,
) -> Result<Vec<C>, AllocError>
    requires below { All (λ cell. All (λ r. r < length numbers.now) (C.ranks cell)) ranks.now }
    requires matched { length ranks.now ≡ length part.now.sheet.cells }
    ensures { IfOk result (λ v. map C.ranks v.items ≡ map C.ranks cells.items
        ++ own_items (map (λ cell. looked_up numbers.now (C.ranks cell)) ranks.now)
        part.now.levels) }
{
    part.known();
    let mut cells = cells;
    for (i, cell) in ranks.iter().enumerate() {
        push_if(&mut cells, part.level(i) == 0, cell.numbered(numbers))?;
    }
    Ok(cells)
}

/// Adds a cell, if it is own.
fn push_if<C: Drop>(cells: &mut Vec<C>, own: bool, cell: C) -> Result<(), AllocError>
    ensures { IfOk result (λ _. cells.new.items
        ≡ cells.old.items ++ (if own then cell ∷ [] else [])) }
{
    if own {
        cells.push(cell)?;
    }
    Ok(())
}

/// Cells of any size with own ones behind them.
fn with_mixed(
    cells: Vec<Mixed>,
    numbers: &[u32],
    ranks: &Ranks,
    part: &PartSheet,
) -> Result<Ranks, AllocError>
    requires below { All (All (λ r. r < length numbers.now)) (ranks_in ranks.now) }
    requires most { All (λ cell. length cell ≤ 4) (ranks_in ranks.now) }
    requires matched { length (ranks_in ranks.now) ≡ length part.now.sheet.cells }
    ensures { IfOk result (λ r. ranks_in r ≡ cells.items
        ++ own_items (map (looked_up numbers.now) (ranks_in ranks.now)) part.now.levels) }
{
    part.known();
    let mut cells = cells;
    for i in 0..ranks.len() {
        let cell = mixed_numbered(ranks.get(i), numbers);
        push_if(&mut cells, part.level(i) == 0, cell)?;
    }
    Ok(Ranks::Any(cells))
}

/// The same cells, in the type that holds all.
fn all_mixed<C: RankCell>(alloc: Global, cells: &[C]) -> Result<Vec<Mixed>, AllocError>
    ensures { IfOk result (λ v. v.items ≡ map C.ranks cells.now) }
{
    let mut all = Vec::with_capacity(alloc, cells.len())?;
    for cell in cells {
        all.push(mixed_of(cell.listed()))?;
    }
    Ok(all)
}
