//! The leaves of vertices: those of inside corners, and those of cuts.
ghost use Rattle.std.specs.Prelude.{◌≡◌, ◌<◌, All, IfOk, length, map};
ghost use Rattle.viz_sheet.specs.Arrays.{names_in};
ghost use Rattle.viz_cells.specs.Steps.Keys.{IsEdgeKey};
ghost use Rattle.viz_clip.specs.Steps.Vertices.{cut_leaves, leaf_at};

use crate::key_list::{high, low};
use std::alloc::{AllocError, Global};
use viz_sheet::Leaves;

/// The leaves of corners.
pub(crate) fn corner_leaves(
    alloc: Global,
    leaves: &Leaves,
    corners: &[u32],
) -> Result<Vec<u32>, AllocError>
    requires below { All (λ r. r < length (names_in leaves.now)) corners.now }
    requires level { All (λ n. length n ≡ 1) (names_in leaves.now) }
    ensures { IfOk result (λ v. v.items ≡ map (leaf_at (names_in leaves.now)) corners.now) }
{
    let mut out = Vec::with_capacity(alloc, corners.len())?;
    for rank in corners {
        out.push(leaf(leaves, *rank as usize))?;
    }
    Ok(out)
}

/// The leaves of both ends of each key.
pub(crate) fn cut_leaves(
    alloc: Global,
    leaves: &Leaves,
    keys: &[u64],
) -> Result<Vec<[u32; 2]>, AllocError>
    requires keys { All (IsEdgeKey (length (names_in leaves.now))) keys.now }
    requires level { All (λ n. length n ≡ 1) (names_in leaves.now) }
    ensures { IfOk result (λ v. v.items ≡ map (cut_leaves (names_in leaves.now)) keys.now) }
{
    let mut out = Vec::with_capacity(alloc, keys.len())?;
    for key in keys {
        out.push(both_leaves(leaves, *key))?;
    }
    Ok(out)
}

/// The leaves of both ends of a key.
fn both_leaves(leaves: &Leaves, key: u64) -> [u32; 2]
    requires key { IsEdgeKey (length (names_in leaves.now)) key }
    requires level { All (λ n. length n ≡ 1) (names_in leaves.now) }
    ensures { result ≡ cut_leaves (names_in leaves.now) key }
{
    [leaf(leaves, low(key)), leaf(leaves, high(key))]
}

/// The leaf of the name of a rank.
fn leaf(leaves: &Leaves, rank: usize) -> u32
    requires below { rank < length (names_in leaves.now) }
    requires level { All (λ n. length n ≡ 1) (names_in leaves.now) }
    ensures { result ≡ leaf_at (names_in leaves.now) rank }
{
    let name = leaves.get(rank);
    name[0]
}
