//! The levels of a part's cells.

ghost use Rattle.std.specs.Prelude.{◌≡◌, ◌++◌, IfOk, length, replicate, true};

use std::alloc::AllocError;
use viz_parts::PartSheet;

/// Whether all cells are the piece's own: then no levels need be handed on.
pub(crate) fn are_own(part: &PartSheet) -> bool
    ensures { result ≡ true → part.now.levels ≡ replicate (length part.now.sheet.cells) 0 }
{
    part.known();
    for i in 0..part.sheet().cell_count() {
        if part.level(i) != 0 {
            return false;
        }
    }
    true
}

/// Adds a level so many times.
pub(crate) fn push_copies(levels: &mut Vec<u32>, count: usize, level: u32) -> Result<(), AllocError>
    ensures { IfOk result (λ _. levels.new.items ≡ levels.old.items ++ replicate count level) }
{
    for _k in 0..count {
        levels.push(level)?;
    }
    Ok(())
}
