//! Which kept request serves a wanted one.

ghost use Rattle.std.specs.Prelude.{◌≡◌, Option, IsTrue};
ghost use Rattle.viz_extent.specs.Extent.{Bounds};
ghost use Rattle.viz_parts.specs.Pieces.{Covers};
ghost use Rattle.viz_requests.specs.Serving.{has_block, serves, ServesItself, ServesOn};
ghost use Rattle.viz_requests.specs.Upstream.{Fits};

use viz_extent::Extent;
use viz_parts::Request;

fn has_block(whole: &Extent, part: &Extent) -> bool
    ensures { result ≡ has_block whole.now part.now }
{
    let [a0, a1, b0, b1, c0, c1] = whole.bounds();
    let [x0, x1, y0, y1, z0, z1] = part.bounds();
    a0 <= x0 && x1 <= a1 && b0 <= y0 && y1 <= b1 && c0 <= z0 && z1 <= c1
}

/// Whether a kept request serves a wanted one, so that nothing has to be made for it.
///
/// A block serves each block in it. A piece serves itself with as many ghost levels or fewer, and
/// with any where it is the only one. A whole mesh covers each of its pieces, and serves none of
/// them: what is made of a piece would be made of all.
pub fn serves(kept: &Request, wanted: &Request) -> bool
    ensures value { result ≡ serves kept.now wanted.now }
    ensures covers { (whole : Option Bounds) → Fits whole kept.now → IsTrue result
        → Covers kept.now wanted.now }
{
    match (kept, wanted) {
        (Request::Block(a), Request::Block(b)) => has_block(a, b),
        (
            Request::Piece { p, n, ghosts },
            Request::Piece {
                p: q,
                n: m,
                ghosts: fewer,
            },
        ) => *p == *q && *n == *m && (*fewer <= *ghosts || *n == 1),
        _ => false,
    }
}

/// Each request serves itself, and what serves a request serves all that this one serves.
pub fn serving_is_an_order()
    ensures itself { ServesItself }
    ensures on { ServesOn }
{}
