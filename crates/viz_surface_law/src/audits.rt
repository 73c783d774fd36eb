//! The counts of an audit.

ghost use Rattle.std.specs.Prelude.{◌≡◌, IfOk};
ghost use Rattle.viz_surface_law.specs.Audit.{count_border, count_lone, count_sides, count_two};
ghost use Rattle.viz_surface_law.specs.Surfaces.{IsSurface, by_edges};

use crate::keys::keys;
use crate::passes::count_keys;
use std::alloc::{AllocError, Global};
use viz_extent::Extent;
use viz_sheet::Sheet;

/// From so many names on a rank doesn't fit half of a side's number.
const MAX_NAMES: usize = 0x8000_0000;

/// How many sides triangles have: all, those in two triangles that run through them in opposite
/// directions, those in exactly one, and those of them whose facet lies on the grid's boundary.
#[derive(Clone, Copy, PartialEq, Eq, Debug)]
pub struct Counts {
    pub sides: u64,
    pub two: u64,
    pub lone: u64,
    pub border: u64,
}

/// Counts the sides of a sheet's triangles.
///
/// It takes 8 bytes for each side of each triangle. A sheet of 2^31 names or more is refused as
/// one that is too large for the memory.
pub fn audit(alloc: Global, sheet: &Sheet, whole: &Extent) -> Result<Counts, AllocError>
    requires surface { IsSurface whole.now sheet.now }
    ensures sides { IfOk result (λ c. c.sides ≡ count_sides (by_edges sheet.now.cells)) }
    ensures two { IfOk result (λ c. c.two ≡ count_two (by_edges sheet.now.cells)) }
    ensures lone { IfOk result (λ c. c.lone ≡ count_lone (by_edges sheet.now.cells)) }
    ensures border { IfOk result (λ c.
        c.border ≡ count_border whole.now (by_edges sheet.now.cells)) }
{
    if sheet.point_count() >= MAX_NAMES {
        return Err(AllocError);
    }
    let mut keys = keys(alloc, sheet.ranks())?;
    keys.sort_unstable();
    let (sides, two, lone, border) = count_keys(&keys, sheet, whole);
    Ok(Counts {
        sides,
        two,
        lone,
        border,
    })
}
