//! The names of the next level: the leaves of both ends of each edge.
ghost use Rattle.std.specs.Prelude.{◌≡◌, ◌<◌, ◌≤◌, All, IfOk, length, map};
ghost use Rattle.viz_sheet.specs.Arrays.{names_in};
ghost use Rattle.viz_cells.specs.Steps.Keys.{IsEdgeKey, key_name};

use crate::key::{high, low};
use std::alloc::{AllocError, Global};
use viz_sheet::Leaves;

/// The name of each key, by names of at most 4 leaves where there are keys.
pub fn joined(alloc: Global, leaves: &Leaves, keys: &[u64]) -> Result<Leaves, AllocError>
    requires most { 1 ≤ length keys.now → All (λ n. length n ≤ 4) (names_in leaves.now) }
    requires keys { All (IsEdgeKey (length (names_in leaves.now))) keys.now }
    ensures value { IfOk result (λ l. names_in l ≡ map (key_name (names_in leaves.now)) keys.now) }
{
    match leaves {
        Leaves::One(names) => Ok(Leaves::Two(joined_ones(alloc, names, keys)?)),
        Leaves::Two(names) => Ok(Leaves::Four(joined_twos(alloc, names, keys)?)),
        Leaves::Four(names) => Ok(Leaves::Eight(joined_fours(alloc, names, keys)?)),
        Leaves::Eight(names) => Ok(Leaves::Eight(joined_none(alloc, names, keys))),
    }
}

/// The same by names of 1 leaf.
fn joined_ones(alloc: Global, names: &[[u32; 1]], keys: &[u64]) -> Result<Vec<[u32; 2]>, AllocError>
    requires { All (IsEdgeKey (length names.now)) keys.now }
    ensures { IfOk result (λ v. v.items ≡ map (key_name names.now) keys.now) }
{
    let mut pairs = Vec::with_capacity(alloc, keys.len())?;
    for key in keys {
        pairs.push(one_pair(names, *key))?;
    }
    Ok(pairs)
}

/// The same by names of 2 leaves.
fn joined_twos(alloc: Global, names: &[[u32; 2]], keys: &[u64]) -> Result<Vec<[u32; 4]>, AllocError>
    requires { All (IsEdgeKey (length names.now)) keys.now }
    ensures { IfOk result (λ v. v.items ≡ map (key_name names.now) keys.now) }
{
    let mut pairs = Vec::with_capacity(alloc, keys.len())?;
    for key in keys {
        pairs.push(two_pair(names, *key))?;
    }
    Ok(pairs)
}

/// The same by names of 4 leaves.
fn joined_fours(
    alloc: Global,
    names: &[[u32; 4]],
    keys: &[u64],
) -> Result<Vec<[u32; 8]>, AllocError>
    requires { All (IsEdgeKey (length names.now)) keys.now }
    ensures { IfOk result (λ v. v.items ≡ map (key_name names.now) keys.now) }
{
    let mut pairs = Vec::with_capacity(alloc, keys.len())?;
    for key in keys {
        pairs.push(four_pair(names, *key))?;
    }
    Ok(pairs)
}

/// The same by names of 8 leaves, of which there are no keys.
fn joined_none(alloc: Global, names: &[[u32; 8]], keys: &[u64]) -> Vec<[u32; 8]>
    requires most { 1 ≤ length keys.now → All (λ n. length n ≤ 4) names.now }
    requires keys { All (IsEdgeKey (length names.now)) keys.now }
    ensures { result.items ≡ map (key_name names.now) keys.now }
{
    // What the type of the names tells of their lengths.
    let _count = names.len();
    let _keys = keys.len();
    Vec::new(alloc)
}

/// The name of a key by names of 1 leaf.
#[tactic(auto, unfolding(crate::specs::Steps::Keys::key_name))]
fn one_pair(names: &[[u32; 1]], key: u64) -> [u32; 2]
    requires { IsEdgeKey (length names.now) key }
    ensures { result ≡ key_name names.now key }
{
    let [a] = names[low(key)];
    let [b] = names[high(key)];
    [a, b]
}

/// The name of a key by names of 2 leaves.
#[tactic(auto, unfolding(crate::specs::Steps::Keys::key_name))]
fn two_pair(names: &[[u32; 2]], key: u64) -> [u32; 4]
    requires { IsEdgeKey (length names.now) key }
    ensures { result ≡ key_name names.now key }
{
    let [a, b] = names[low(key)];
    let [c, d] = names[high(key)];
    [a, b, c, d]
}

/// The name of a key by names of 4 leaves.
#[tactic(auto, unfolding(crate::specs::Steps::Keys::key_name))]
fn four_pair(names: &[[u32; 4]], key: u64) -> [u32; 8]
    requires { IsEdgeKey (length names.now) key }
    ensures { result ≡ key_name names.now key }
{
    let [a, b, c, d] = names[low(key)];
    let [e, f, g, h] = names[high(key)];
    [a, b, c, d, e, f, g, h]
}
