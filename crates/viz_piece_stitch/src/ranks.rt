//! The ranks of a part's names among all names.

ghost use Rattle.std.specs.Prelude.{◌≡◌, IfOk, map};
ghost use Rattle.viz_sheet.specs.Arrays.{names_in};
ghost use Rattle.viz_sheet.specs.Ranked.{rank_of};
ghost use Rattle.viz_piece_stitch.specs.Steps.Walk.{AreAmong};

use crate::walk::ranks_by_walk;
use std::alloc::{AllocError, Global};
use viz_sheet::Leaves;

/// The ranks of these names among all, which have them.
pub(crate) fn ranks_among(
    alloc: Global,
    names: &Leaves,
    piece: &Leaves,
) -> Result<Vec<u32>, AllocError>
    requires { AreAmong (names_in names.now) (names_in piece.now) }
    ensures { IfOk result (λ v.
        v.items ≡ map (rank_of (names_in names.now)) (names_in piece.now)) }
{
    match names {
        Leaves::One(all) => match piece {
            Leaves::One(piece) => ranks_by_walk(alloc, all, piece),
            _ => no_ranks(alloc, names, piece),
        },
        Leaves::Two(all) => match piece {
            Leaves::Two(piece) => ranks_by_walk(alloc, all, piece),
            _ => no_ranks(alloc, names, piece),
        },
        Leaves::Four(all) => match piece {
            Leaves::Four(piece) => ranks_by_walk(alloc, all, piece),
            _ => no_ranks(alloc, names, piece),
        },
        Leaves::Eight(all) => match piece {
            Leaves::Eight(piece) => ranks_by_walk(alloc, all, piece),
            _ => no_ranks(alloc, names, piece),
        },
    }
}

/// The ranks of no names, as a part without cells has them. Names of another level than all others
/// are answered as want of memory.
#[tactic(auto, using(crate::proofs::NameLemmas::no_items))]
fn no_ranks(alloc: Global, names: &Leaves, piece: &Leaves) -> Result<Vec<u32>, AllocError>
    ensures { IfOk result (λ v.
        v.items ≡ map (rank_of (names_in names.now)) (names_in piece.now)) }
{
    if piece.len() > 0 {
        return Err(AllocError);
    }
    Ok(Vec::new(alloc))
}
