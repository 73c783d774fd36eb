//! The names of all parts, each once.

ghost use Rattle.std.specs.Prelude.{IfOk};
ghost use Rattle.viz_piece_stitch.specs.Steps.Walk.{AreUnited};

use std::alloc::AllocError;

/// Names in any order, each once, ascending. Names of parts end to end are runs, which the sort
/// merges.
pub(crate) fn united<const N: usize>(names: Vec<[u32; N]>) -> Result<Vec<[u32; N]>, AllocError>
    ensures { IfOk result (λ v. AreUnited names.entry.items v.items) }
{
    let mut names = names;
    names.sort()?;
    names.dedup();
    Ok(names)
}
