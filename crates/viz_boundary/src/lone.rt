//! Which facets have a set of ranks that no other facet has, by a sort of keys and one pass over
//! neighbours.

ghost use Rattle.std.specs.Prelude.{◌≡◌, ◌↔◌, ◌&&◌, ◌+◌, ◌-◌, ◌<◌, ◌≤◌, ◌/◌, ◌%◌, ◌^◌, false};
ghost use Rattle.std.specs.Prelude.{true, All, IfOk, IsTrue, length, slice_index_or};
ghost use Rattle.std.specs.List.{flat_map};
ghost use Rattle.std.specs.List.Sorted.{IsSorted};
ghost use Rattle.std.specs.Ordering.{nat_cmp};
ghost use Rattle.viz_sheet.specs.Arrays.{ranks_in};
ghost use Rattle.viz_mesh_meaning.specs.Facets.{facets_of};
ghost use Rattle.viz_boundary.specs.Steps.Keys.{keyed_from};
ghost use Rattle.viz_boundary.specs.Steps.Alone.{AreMarked, Begins, Ends, HaveIndices, TellAlone};
ghost use Rattle.viz_boundary.specs.Steps.Alone.{index_of, is_alone, set_of};

use crate::keys::facet_keys;
use std::alloc::{AllocError, Global};
use viz_sheet::Ranks;

/// For each facet of all cells in turn, whether no other facet has its set of ranks. There are at
/// most 2^30 cells, with ranks below a number of points.
pub(crate) fn lone_marks(
    alloc: Global,
    points: usize,
    ranks: &Ranks,
) -> Result<Vec<bool>, AllocError>
    requires few { length (ranks_in ranks.now) ≤ 2 ^ 30 }
    requires most { All (λ cell. length cell ≤ 4) (ranks_in ranks.now) }
    ensures value { IfOk result (λ v.
        TellAlone (keyed_from 0 (flat_map facets_of (ranks_in ranks.now))) v.items) }
    ensures few { IfOk result (λ v. length v.items ≤ 2 ^ 32) }
{
    let mut sorted = facet_keys(alloc, points, ranks)?;
    let mut marks = vec![in alloc; false; sorted.len()]?;
    sorted.sort_unstable();
    mark_lone(&mut marks, &sorted);
    Ok(marks)
}

/// Marks the indices of the keys whose set no other key has.
fn mark_lone(marks: &mut Vec<bool>, sorted: &[u128])
    requires sorted { IsSorted nat_cmp sorted.now }
    requires indices { HaveIndices sorted.now }
    requires marks { AreMarked sorted.now 0 marks.old.items }
    ensures value { AreMarked sorted.now (length sorted.now) marks.new.items }
{
    for at in 0..sorted.len() {
        mark_key(marks, sorted, at);
    }
}

/// Marks the index of a key if no other one has its set.
fn mark_key(marks: &mut Vec<bool>, sorted: &[u128], at: usize)
    requires within { at < length sorted.now }
    requires sorted { IsSorted nat_cmp sorted.now }
    requires indices { HaveIndices sorted.now }
    requires marks { AreMarked sorted.now at marks.old.items }
    ensures value { AreMarked sorted.now (at + 1) marks.new.items }
{
    if is_alone(sorted, at) {
        marks[index_of(sorted[at])] = true;
    }
}

/// No other key has the set of the one at a place.
fn is_alone(sorted: &[u128], at: usize) -> bool
    requires within { at < length sorted.now }
    requires sorted { IsSorted nat_cmp sorted.now }
    ensures { result ≡ is_alone sorted.now at }
{
    both(begins(sorted, at), ends(sorted, at))
}

/// Both are true.
fn both(a: bool, b: bool) -> bool
    ensures { result ≡ (a && b) }
{
    a && b
}

/// The key in front has another set.
fn begins(sorted: &[u128], at: usize) -> bool
    requires { at < length sorted.now }
    ensures yes { result ≡ true → Begins sorted.now at }
    ensures no { result ≡ false → (0 < at)
        × (set_of (slice_index_or sorted.now (at - 1) 0)
        ≡ set_of (slice_index_or sorted.now at 0)) }
{
    at == 0 || !is_same_set(sorted[at - 1], sorted[at])
}

/// The key behind has another set.
fn ends(sorted: &[u128], at: usize) -> bool
    requires { at < length sorted.now }
    ensures yes { result ≡ true → Ends sorted.now at }
    ensures no { result ≡ false → (at + 1 < length sorted.now)
        × (set_of (slice_index_or sorted.now (at + 1) 0)
        ≡ set_of (slice_index_or sorted.now at 0)) }
{
    at + 1 == sorted.len() || !is_same_set(sorted[at + 1], sorted[at])
}

/// Two keys have one set.
fn is_same_set(a: u128, b: u128) -> bool
    ensures { IsTrue result ↔ (set_of a ≡ set_of b) }
{
    a >> 32 == b >> 32
}

/// The index of a key.
fn index_of(key: u128) -> usize
    ensures { result ≡ index_of key }
{
    (key % (1 << 32)) as usize
}
