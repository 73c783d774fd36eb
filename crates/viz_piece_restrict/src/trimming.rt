//! Parts of sheets without their last ghost levels.

ghost use Rattle.std.specs.Prelude.{◌≡◌, IfOk, length, map, nat_le};
ghost use Rattle.viz_piece_filters.specs.Filters.{trimmed_part};
ghost use Rattle.viz_sheet.specs.Kept.{kept};

use crate::keeping::kept_sheet;
use std::alloc::{AllocError, Global};
use viz_parts::PartSheet;

/// The cells of a part with a level of at most so much.
pub(crate) fn trimmed(alloc: Global, part: &PartSheet, ghosts: u32) -> Result<PartSheet, AllocError>
    ensures { IfOk result (λ cut. cut ≡ trimmed_part ghosts part.now) }
{
    part.known();
    let keeps = near_cells(alloc, part, ghosts)?;
    let sheet = kept_sheet(alloc, part.sheet(), &keeps)?;
    let levels = kept_levels(alloc, part, &keeps)?;
    Ok(PartSheet::new(sheet, levels))
}

/// Which cells have a level of at most so much.
fn near_cells(alloc: Global, part: &PartSheet, ghosts: u32) -> Result<Vec<bool>, AllocError>
    ensures { IfOk result (λ v. v.items ≡ map (λ l. nat_le l ghosts) part.now.levels) }
{
    part.known();
    let count = part.sheet().cell_count();
    let mut keeps = Vec::with_capacity(alloc, count)?;
    for i in 0..count {
        keeps.push(part.level(i) <= ghosts)?;
    }
    Ok(keeps)
}

/// The levels of the marked cells.
#[tactic(auto, using(viz_sheet::proofs::KeptLemmas::more))]
fn kept_levels(alloc: Global, part: &PartSheet, keeps: &[bool]) -> Result<Vec<u32>, AllocError>
    requires { length keeps.now ≡ length part.now.levels }
    ensures { IfOk result (λ v. v.items ≡ kept keeps.now part.now.levels) }
{
    part.known();
    let mut levels = Vec::with_capacity(alloc, part.sheet().cell_count())?;
    for i in 0..part.sheet().cell_count() {
        if keeps[i] {
            levels.push(part.level(i))?;
        }
    }
    Ok(levels)
}
