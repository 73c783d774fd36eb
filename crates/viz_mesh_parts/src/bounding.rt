//! Boundaries of parts.

ghost use Rattle.std.specs.Prelude.{◌≡◌, ◌<◌, IfOk, length, map, nat_le};
ghost use Rattle.viz_mesh_meaning.specs.Facets.{boundary_of, facets_of};
ghost use Rattle.viz_piece_filters.specs.Filters.{boundary_part};
ghost use Rattle.viz_sheet.specs.Kept.{kept};
ghost use Rattle.viz_mesh_parts.specs.Steps.{AreHandedOn, IsNear};

use crate::levels::{are_own, push_copies};
use crate::matching::pass_facets;
use std::alloc::{AllocError, Global};
use viz_boundary::boundary;
use viz_parts::PartSheet;
use viz_piece_restrict::piece_of;
use viz_sheet::Sheet;

/// The boundary of each part, without the facets of cells past a ghost level.
pub(crate) fn bounded_parts(
    alloc: Global,
    parts: &[PartSheet],
    ghosts: u32,
) -> Result<Vec<PartSheet>, AllocError>
    ensures { IfOk result (λ v. v.items ≡ map (boundary_part ghosts) parts.now) }
{
    let mut made = Vec::with_capacity(alloc, parts.len())?;
    for part in parts {
        made.push(bounded_part(alloc, part, ghosts)?)?;
    }
    Ok(made)
}

/// The boundary of a part.
fn bounded_part(alloc: Global, part: &PartSheet, ghosts: u32) -> Result<PartSheet, AllocError>
    ensures { IfOk result (λ p. p ≡ boundary_part ghosts part.now) }
{
    part.known();
    let sheet = part.sheet();
    sheet.known();
    let made = bounded_sheet(alloc, sheet)?;
    if are_own(part) {
        return Ok(PartSheet::own(made));
    }
    let levels = facet_levels(alloc, part, &made)?;
    near_part(alloc, made, &levels, ghosts)
}

/// The boundary of a sheet.
fn bounded_sheet(alloc: Global, sheet: &Sheet) -> Result<Sheet, AllocError>
    ensures { IfOk result (λ s. s ≡ boundary_of sheet.now) }
{
    let mesh = boundary(alloc, std::slice::from_ref(sheet))?;
    match mesh.into_sheets().pop() {
        Some(made) => Ok(made),
        None => unreachable!(),
    }
}

/// For each cell of a sheet, which has some facets of a part's cells in their order, the level of
/// the cell that it is a facet of.
fn facet_levels(alloc: Global, part: &PartSheet, made: &Sheet) -> Result<Vec<u32>, AllocError>
    ensures { IfOk result (λ v. AreHandedOn facets_of part.now made.now.cells v.items) }
{
    part.known();
    let sheet = part.sheet();
    let mut levels = Vec::with_capacity(alloc, made.cell_count())?;
    let mut at = 0;
    for i in 0..sheet.cell_count() {
        let next = pass_facets(made, at, sheet, sheet.cell(i));
        push_copies(&mut levels, next - at, part.level(i))?;
        at = next;
    }
    Ok(levels)
}

/// The cells of a sheet up to a level.
fn near_part(
    alloc: Global,
    sheet: Sheet,
    levels: &[u32],
    ghosts: u32,
) -> Result<PartSheet, AllocError>
    requires matched { length levels.now ≡ length sheet.cells }
    ensures { IfOk result (IsNear ghosts sheet levels.now) }
{
    let near = near_marks(alloc, levels, ghosts)?;
    let left = near_levels(alloc, &near, levels)?;
    let cut = piece_of(alloc, &sheet, near, 0)?;
    Ok(PartSheet::new(cut.into_sheet(), left))
}

/// Which levels are at most so much.
fn near_marks(alloc: Global, levels: &[u32], ghosts: u32) -> Result<Vec<bool>, AllocError>
    ensures { IfOk result (λ v. v.items ≡ map (λ l. nat_le l ghosts) levels.now) }
{
    let mut marks = Vec::with_capacity(alloc, levels.len())?;
    for level in levels {
        marks.push(*level <= ghosts)?;
    }
    Ok(marks)
}

/// The levels of the marked cells.
#[tactic(auto, using(viz_sheet::proofs::KeptLemmas::more))]
fn near_levels(alloc: Global, marks: &[bool], levels: &[u32]) -> Result<Vec<u32>, AllocError>
    requires matched { length marks.now ≡ length levels.now }
    ensures { IfOk result (λ v. v.items ≡ kept marks.now levels.now) }
{
    let mut left = Vec::new(alloc);
    for (i, level) in levels.iter().enumerate() {
        if marks[i] {
            left.push(*level)?;
        }
    }
    Ok(left)
}
