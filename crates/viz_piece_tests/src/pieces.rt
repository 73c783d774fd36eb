//! All pieces of a mesh.

ghost use Rattle.std.specs.Prelude.{◌<◌, ◌≤◌, IfOk};
ghost use Rattle.viz_parts.specs.Stitching.{AreAllParts, ArePiecesOf};
ghost use Rattle.viz_piece_restrict.specs.Restricting.{IsSomeAnswer};
ghost use Rattle.viz_piece_tests.specs.Steps.Cut.{AreCut, IsCutInTurn};

use std::alloc::{AllocError, Global};
use viz_parts::{Part, Request};
use viz_piece_restrict::{restrict, whole_mesh};
use viz_sheet::Mesh;

/// All pieces of `n` of a mesh, whose cells are shared out in turn, each with so many ghost levels.
/// Each is cut from one with `more` levels, as many or more.
pub fn all_pieces(
    alloc: Global,
    mesh: Mesh,
    n: u32,
    more: u32,
    ghosts: u32,
) -> Result<Vec<Part>, AllocError>
    requires some { 0 < n }
    requires fewer { ghosts ≤ more }
    ensures pieces { IfOk result (λ v. ArePiecesOf mesh v.items) }
    ensures all { IfOk result (λ v. AreAllParts v.items) }
{
    let whole = whole_mesh(alloc, mesh)?;
    let parts = pieces_cut(alloc, &whole, n, more, ghosts)?;
    Ok(parts)
}

/// All pieces of a mesh, cut from the only one.
fn pieces_cut(
    alloc: Global,
    whole: &Part,
    n: u32,
    more: u32,
    ghosts: u32,
) -> Result<Vec<Part>, AllocError>
    requires whole { IsSomeAnswer (Request.Piece 0 1 0) whole.now }
    requires fewer { ghosts ≤ more }
    ensures { IfOk result (λ v. (sheets : _)
        → IsCutInTurn sheets 0 1 0 whole.now → AreCut sheets n ghosts n v.items) }
{
    let mut parts = Vec::new(alloc);
    for p in 0..n {
        parts.push(piece_cut(alloc, whole, p, n, more, ghosts)?)?;
    }
    Ok(parts)
}

/// A piece of a mesh, cut from one with more ghost levels, which is cut from the only one.
fn piece_cut(
    alloc: Global,
    whole: &Part,
    p: u32,
    n: u32,
    more: u32,
    ghosts: u32,
) -> Result<Part, AllocError>
    requires below { p < n }
    requires whole { IsSomeAnswer (Request.Piece 0 1 0) whole.now }
    requires fewer { ghosts ≤ more }
    ensures { IfOk result (λ part. (sheets : _)
        → IsCutInTurn sheets 0 1 0 whole.now → IsCutInTurn sheets p n ghosts part) }
{
    let only = Request::Piece {
        p: 0,
        n: 1,
        ghosts: 0,
    };
    let kept = Request::Piece { p, n, ghosts: more };
    let larger = restrict(alloc, whole, &only, &kept)?;
    let part = restrict(alloc, &larger, &kept, &Request::Piece { p, n, ghosts })?;
    Ok(part)
}
