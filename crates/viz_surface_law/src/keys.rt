//! The sides of triangles as numbers, by the ranks of their ends.

ghost use Rattle.std.specs.Prelude.{◌≡◌, ◌<◌, ◌^◌, All, IfOk, length};
ghost use Rattle.viz_sheet.specs.Arrays.{ranks_in};
ghost use Rattle.viz_surface_law.specs.Steps.Keys.{key_of, keys_in, keys_of};

use std::alloc::{AllocError, Global};
use viz_sheet::Ranks;

/// The key of a side from one rank to another.
fn key(p: u32, q: u32) -> u64
    requires first { p < 2 ^ 31 }
    requires second { q < 2 ^ 31 }
    ensures value { result ≡ key_of p q }
{
    let (p, q) = (u64::from(p), u64::from(q));
    if p < q {
        2 * (p * 0x8000_0000 + q)
    } else {
        2 * (q * 0x8000_0000 + p) + 1
    }
}

/// The keys of a triangle's sides.
fn three(cell: &[u32]) -> [u64; 3]
    requires size { length cell.now ≡ 3 }
    requires below { All (λ rank. rank < 2 ^ 31) cell.now }
    ensures value { result ≡ keys_of cell.now }
{
    let (a, b, c) = (cell[0], cell[1], cell[2]);
    [key(a, b), key(b, c), key(c, a)]
}

/// The keys of all triangles' sides, in turn.
pub(crate) fn keys(alloc: Global, triangles: &Ranks) -> Result<Vec<u64>, AllocError>
    requires sizes { All (λ cell. length cell ≡ 3) (ranks_in triangles.now) }
    requires below { All (λ cell. All (λ rank. rank < 2 ^ 31) cell) (ranks_in triangles.now) }
    ensures value { IfOk result (λ v. v.items ≡ keys_in (ranks_in triangles.now)) }
{
    let mut keys = Vec::with_capacity(alloc, triangles.len().saturating_mul(3))?;
    for i in 0..triangles.len() {
        keys.extend_from_slice(&three(triangles.get(i)))?;
    }
    Ok(keys)
}
