//! A part for a request, cut from a part for another.

ghost use Rattle.std.specs.Prelude.{◌≡◌, ◌<◌, ◌↔◌, IfOk, IsTrue};
ghost use Rattle.viz_parts.specs.Pieces.{Covers};
ghost use Rattle.viz_piece_restrict.specs.Restricting.{IsRestriction, IsOneOfMany, IsSamePiece};
ghost use Rattle.viz_piece_restrict.specs.Restricting.{IsSomeAnswer};

use crate::mesh::{pieces_in_turn, trimmed_parts};
use std::alloc::{AllocError, Global};
use viz_base::Shared;
use viz_dataset::Image;
use viz_parts::{Part, PartSheet, Request};

/// The part for the wanted request, cut from a part for the kept one, which covers it.
///
/// Of a block it is the block in it, of a piece the cells up to the wanted ghost level. Of the only
/// piece it is the piece by its range of cells, where these are shared out in turn, with the cells
/// around it. Where the requests may be equal, call `restrict_shared`, which then copies nothing.
pub fn restrict(
    alloc: Global,
    part: &Part,
    kept: &Request,
    wanted: &Request,
) -> Result<Part, AllocError>
    requires covers { Covers kept.now wanted.now }
    requires counted { IsOneOfMany wanted.now }
    requires answers { IsSomeAnswer kept.now part.now }
    ensures ok { IfOk result (IsRestriction kept.now wanted.now part.now) }
    ensures answers { IfOk result (IsSomeAnswer wanted.now) }
{
    match part {
        Part::Image(image) => restricted_image(alloc, image, kept, wanted),
        Part::Mesh(sheets) => restricted_mesh(alloc, sheets, kept, wanted),
    }
}

/// The same of a part that several own. Where the requests are equal it is that part, which isn't
/// copied.
pub fn restrict_shared(
    alloc: Global,
    part: &Shared<Part>,
    kept: &Request,
    wanted: &Request,
) -> Result<Shared<Part>, AllocError>
    requires covers { Covers kept.now wanted.now }
    requires counted { IsOneOfMany wanted.now }
    requires answers { IsSomeAnswer kept.now part.now }
    ensures ok { IfOk result (IsRestriction kept.now wanted.now part.now) }
    ensures answers { IfOk result (IsSomeAnswer wanted.now) }
    ensures same { kept.now ≡ wanted.now → IfOk result (λ cut. cut ≡ part.now) }
{
    if kept == wanted {
        return part.copy();
    }
    let cut = restrict(alloc, part.get(), kept, wanted)?;
    Shared::new(alloc, cut)
}

/// The block of an image.
fn restricted_image(
    alloc: Global,
    image: &Image,
    kept: &Request,
    wanted: &Request,
) -> Result<Part, AllocError>
    requires covers { Covers kept.now wanted.now }
    requires answers { IsSomeAnswer kept.now (Part.Image image.now) }
    ensures ok { IfOk result (IsRestriction kept.now wanted.now (Part.Image image.now)) }
    ensures answers { IfOk result (IsSomeAnswer wanted.now) }
{
    match wanted {
        Request::Block(block) => Ok(Part::Image(image.restrict(alloc, block)?)),
        Request::Piece { .. } => unreachable!(),
    }
}

/// The piece of a mesh.
fn restricted_mesh(
    alloc: Global,
    parts: &Vec<PartSheet>,
    kept: &Request,
    wanted: &Request,
) -> Result<Part, AllocError>
    requires covers { Covers kept.now wanted.now }
    requires counted { IsOneOfMany wanted.now }
    requires answers { IsSomeAnswer kept.now (Part.Mesh parts.now) }
    ensures ok { IfOk result (IsRestriction kept.now wanted.now (Part.Mesh parts.now)) }
    ensures answers { IfOk result (IsSomeAnswer wanted.now) }
{
    match wanted {
        Request::Block(_) => unreachable!(),
        Request::Piece { p, n, ghosts } => {
            if is_same_piece(kept, wanted) {
                let cuts = trimmed_parts(alloc, parts, *ghosts)?;
                return Ok(Part::Mesh(cuts));
            }
            let cuts = pieces_in_turn(alloc, parts, *p, *n, *ghosts)?;
            Ok(Part::Mesh(cuts))
        }
    }
}

/// Whether the wanted piece is the kept one with as many ghost levels or fewer.
fn is_same_piece(kept: &Request, wanted: &Request) -> bool
    ensures { IsTrue result ↔ IsSamePiece kept.now wanted.now }
{
    match kept {
        Request::Block(_) => false,
        Request::Piece { p, n, ghosts } => is_piece(*p, *n, *ghosts, wanted),
    }
}

/// Whether it is this piece with as many ghost levels or fewer.
fn is_piece(p: u32, n: u32, ghosts: u32, wanted: &Request) -> bool
    ensures { IsTrue result ↔ IsSamePiece (Request.Piece p n ghosts) wanted.now }
{
    match wanted {
        Request::Block(_) => false,
        Request::Piece {
            p: q,
            n: m,
            ghosts: fewer,
        } => *q == p && *m == n && *fewer <= ghosts,
    }
}
