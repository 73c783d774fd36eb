//! Parts of meshes, sheet by sheet.

ghost use Rattle.std.specs.Prelude.{◌≡◌, ◌<◌, IfOk, length, map};
ghost use Rattle.viz_piece_filters.specs.Filters.{trimmed_part};
ghost use Rattle.viz_piece_restrict.specs.Steps.Cuts.{ArePieces};

use crate::piece::piece_in_turn;
use crate::trimming::trimmed;
use std::alloc::{AllocError, Global};
use viz_parts::PartSheet;

/// The parts of all sheets without the levels past the last one.
pub(crate) fn trimmed_parts(
    alloc: Global,
    parts: &[PartSheet],
    ghosts: u32,
) -> Result<Vec<PartSheet>, AllocError>
    ensures { IfOk result (λ v. v.items ≡ map (trimmed_part ghosts) parts.now) }
{
    let mut cuts = Vec::with_capacity(alloc, parts.len())?;
    for part in parts {
        cuts.push(trimmed(alloc, part, ghosts)?)?;
    }
    Ok(cuts)
}

/// Piece `p` of `n` of all sheets, whose cells are shared out in turn.
pub(crate) fn pieces_in_turn(
    alloc: Global,
    parts: &[PartSheet],
    p: u32,
    n: u32,
    ghosts: u32,
) -> Result<Vec<PartSheet>, AllocError>
    requires { p < n }
    ensures { IfOk result (λ v. ArePieces p n ghosts (length parts.now) parts.now v.items) }
{
    let mut cuts = Vec::with_capacity(alloc, parts.len())?;
    for part in parts {
        cuts.push(piece_in_turn(alloc, part.sheet(), p, n, ghosts)?)?;
    }
    Ok(cuts)
}
