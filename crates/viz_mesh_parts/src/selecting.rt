//! Selections of parts.

ghost use Rattle.std.specs.Prelude.{◌≡◌, IfOk, map};
ghost use Rattle.viz_mesh_meaning.specs.Select.{selected};
ghost use Rattle.viz_piece_filters.specs.Filters.{selected_part};
ghost use Rattle.viz_mesh_parts.specs.Steps.{AreHandedOn, itself};

use crate::levels::{are_own, push_copies};
use crate::matching::step;
use std::alloc::{AllocError, Global};
use viz_parts::PartSheet;
use viz_select::select;
use viz_sheet::Sheet;

/// The selection of each part: of its cells those all of whose corners have a scalar from `lo` to
/// `hi`, or any of them, with their levels.
pub(crate) fn selected_parts(
    alloc: Global,
    parts: &[PartSheet],
    lo: &i64,
    hi: &i64,
    all: bool,
) -> Result<Vec<PartSheet>, AllocError>
    ensures { IfOk result (λ v. v.items ≡ map (selected_part all lo.now hi.now) parts.now) }
{
    let mut made = Vec::with_capacity(alloc, parts.len())?;
    for part in parts {
        made.push(selected_part(alloc, part, lo, hi, all)?)?;
    }
    Ok(made)
}

/// The selection of a part.
fn selected_part(
    alloc: Global,
    part: &PartSheet,
    lo: &i64,
    hi: &i64,
    all: bool,
) -> Result<PartSheet, AllocError>
    ensures { IfOk result (λ p. p ≡ selected_part all lo.now hi.now part.now) }
{
    part.known();
    let made = selected_sheet(alloc, part.sheet(), lo, hi, all)?;
    if are_own(part) {
        return Ok(PartSheet::own(made));
    }
    let levels = selected_levels(alloc, part, &made)?;
    Ok(PartSheet::new(made, levels))
}

/// The selection of a sheet.
fn selected_sheet(
    alloc: Global,
    sheet: &Sheet,
    lo: &i64,
    hi: &i64,
    all: bool,
) -> Result<Sheet, AllocError>
    ensures { IfOk result (λ s. s ≡ selected all lo.now hi.now sheet.now) }
{
    let mesh = select(alloc, std::slice::from_ref(sheet), *lo, *hi, all)?;
    match mesh.into_sheets().pop() {
        Some(made) => Ok(made),
        None => unreachable!(),
    }
}

/// The levels of a part's cells that are those of a sheet, which has some of them in their order.
fn selected_levels(alloc: Global, part: &PartSheet, made: &Sheet) -> Result<Vec<u32>, AllocError>
    ensures { IfOk result (λ v. AreHandedOn itself part.now made.now.cells v.items) }
{
    part.known();
    let sheet = part.sheet();
    let mut levels = Vec::with_capacity(alloc, made.cell_count())?;
    let mut at = 0;
    for i in 0..sheet.cell_count() {
        let next = step(made, at, sheet, sheet.cell(i));
        push_copies(&mut levels, next - at, part.level(i))?;
        at = next;
    }
    Ok(levels)
}
