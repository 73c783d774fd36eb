//! Which parts can serve which requests.

ghost use Rattle.std.specs.Prelude.{◌≡◌, ◌≤◌, ◌⊎◌, ◌↔◌, IsTrue};
ghost use Rattle.viz_parts.specs.Pieces.{Covers};

use crate::request::Request;
use viz_extent::Extent;

/// Whether every part for the wanted request can be cut from any part for the kept one.
///
/// A block covers each block in it. Piece 0 of 1 covers every piece, whatever its ghost levels.
/// Any other piece covers the same piece of as many with as many ghost levels or fewer.
pub fn covers(kept: &Request, wanted: &Request) -> bool
    ensures value { IsTrue result ↔ Covers kept.now wanted.now }
{
    match kept {
        Request::Block(block) => covers_block(block, wanted),
        Request::Piece { p, n, ghosts } => covers_piece(*p, *n, *ghosts, wanted),
    }
}

/// Whether a block covers a request.
fn covers_block(block: &Extent, wanted: &Request) -> bool
    ensures { IsTrue result ↔ Covers (Request.Block block.now) wanted.now }
{
    match wanted {
        Request::Block(part) => block.contains(part),
        Request::Piece { .. } => false,
    }
}

/// Whether a piece covers a request.
fn covers_piece(p: u32, n: u32, ghosts: u32, wanted: &Request) -> bool
    ensures { IsTrue result ↔ Covers (Request.Piece p n ghosts) wanted.now }
{
    match wanted {
        Request::Block(_) => false,
        Request::Piece {
            p: q,
            n: m,
            ghosts: fewer,
        } => is_whole(p, n) || is_same(p, n, *q, *m) && *fewer <= ghosts,
    }
}

/// Whether a piece is the only one.
fn is_whole(p: u32, n: u32) -> bool
    ensures { IsTrue result ↔ ((p ≡ 0) × (n ≡ 1)) }
{
    p == 0 && n == 1
}

/// Whether two pieces are the same one of as many.
fn is_same(p: u32, n: u32, q: u32, m: u32) -> bool
    ensures { IsTrue result ↔ ((q ≡ p) × (m ≡ n)) }
{
    q == p && m == n
}
