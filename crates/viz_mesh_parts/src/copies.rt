//! Copies of parts that are only lent.

ghost use Rattle.std.specs.Prelude.{◌≡◌, ◌++◌, IfOk, OnOk};

use crate::levels::are_own;
use std::alloc::{AllocError, Global};
use viz_parts::PartSheet;
use viz_select::copied;

/// Adds the same parts.
pub(crate) fn push_copied(
    alloc: Global,
    out: &mut Vec<PartSheet>,
    parts: &[PartSheet],
) -> Result<(), AllocError>
    ensures value { OnOk result (out.new.items ≡ out.old.items ++ parts.now) }
{
    for part in parts {
        out.push(copied_part(alloc, part)?)?;
    }
    Ok(())
}

/// The same part.
fn copied_part(alloc: Global, part: &PartSheet) -> Result<PartSheet, AllocError>
    ensures { IfOk result (λ copy. copy ≡ part.now) }
{
    part.known();
    let sheet = copied(alloc, part.sheet())?;
    if are_own(part) {
        return Ok(PartSheet::own(sheet));
    }
    let levels = levels_of(alloc, part)?;
    Ok(PartSheet::new(sheet, levels))
}

/// The levels of a part.
fn levels_of(alloc: Global, part: &PartSheet) -> Result<Vec<u32>, AllocError>
    ensures { IfOk result (λ v. v.items ≡ part.now.levels) }
{
    part.known();
    let count = part.sheet().cell_count();
    let mut levels = Vec::with_capacity(alloc, count)?;
    for i in 0..count {
        levels.push(part.level(i))?;
    }
    Ok(levels)
}
