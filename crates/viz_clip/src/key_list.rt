//! The list of the keys of cut edges.
ghost use Rattle.std.specs.Prelude.{◌≡◌, ◌+◌, ◌*◌, ◌^◌, ◌<◌, ◌≤◌, [], ◌∷◌, All, IfOk, IsTrue, OnOk};
ghost use Rattle.std.specs.Prelude.{length, slice_index_or};
ghost use Rattle.viz_sheet.specs.Arrays.{ranks_in};
ghost use Rattle.viz_sheet.specs.Ranked.{IsCell};
ghost use Rattle.viz_cells.specs.Steps.Keys.{high_of, key_of, low_of};
ghost use Rattle.viz_cells.specs.Steps.Numbered.{AreAdded, AreEndsOf, AreKeysOf};
ghost use Rattle.viz_clip.specs.Steps.Corners.{first_corners, last_corners};
ghost use Rattle.viz_clip.specs.Steps.Keys.{IsTet, cell_keys, cut_keys};

use crate::corners::{Corners, corners_of};
use std::alloc::{AllocError, Global};
use viz_sheet::Ranks;

/// The most slots of a table of keys that were met lately.
const MOST_SLOTS: usize = 1 << 20;

/// The keys of the cut edges of all cells, each once, ascending.
pub(crate) fn keys_in_order(
    alloc: Global,
    inside: &[bool],
    ranks: &Ranks,
) -> Result<Vec<u64>, AllocError>
    requires cells { All (IsTet (length inside.now)) (ranks_in ranks.now) }
    ensures value { IfOk result (λ v.
        AreKeysOf (cell_keys inside.now (ranks_in ranks.now)) v.items) }
{
    let mut keys = ends(alloc, inside, ranks)?;
    keys.sort_unstable();
    keys.dedup();
    Ok(keys)
}

/// The keys of the cut edges, cell by cell, most of them once: a key that was met lately isn't
/// added again.
fn ends(alloc: Global, inside: &[bool], ranks: &Ranks) -> Result<Vec<u64>, AllocError>
    requires cells { All (IsTet (length inside.now)) (ranks_in ranks.now) }
    ensures value { IfOk result (λ v.
        AreEndsOf (cell_keys inside.now (ranks_in ranks.now)) v.items) }
{
    let mut ends = Vec::new(alloc);
    let mut met = vec![in alloc; 0_u32; ranks.len().min(MOST_SLOTS)]?;
    for i in 0..ranks.len() {
        let corners = corners_of(inside, ranks.get(i));
        add_cell(&mut ends, &mut met, &corners)?;
    }
    Ok(ends)
}

/// Adds the keys of the cut edges of a cell: one for each inside and each outside corner.
fn add_cell(ends: &mut Vec<u64>, met: &mut [u32], corners: &Corners) -> Result<(), AllocError>
    requires most { corners.now.inside ≤ 4 }
    ensures added { OnOk result (AreAdded ends.old.items
        (cut_keys (first_corners corners.now) (last_corners corners.now)) ends.new.items) }
{
    let count = corners.inside;
    let (a, b, c, d) = (corners.a, corners.b, corners.c, corners.d);
    if count == 1 {
        return add_keys(ends, met, &[key(a, b), key(a, c), key(a, d)]);
    }
    if count == 2 {
        return add_keys(ends, met, &[key(a, c), key(a, d), key(b, c), key(b, d)]);
    }
    if count == 3 {
        return add_keys(ends, met, &[key(a, d), key(b, d), key(c, d)]);
    }
    Ok(())
}

/// Adds keys that weren't met lately.
fn add_keys(ends: &mut Vec<u64>, met: &mut [u32], keys: &[u64]) -> Result<(), AllocError>
    ensures { OnOk result (AreAdded ends.old.items keys.now ends.new.items) }
{
    for key in keys {
        add_key(ends, met, *key)?;
    }
    Ok(())
}

/// Adds a key if it wasn't met lately. A slot of the table has an index that a key may have in the
/// list: nothing is promised of it, and it is looked at.
fn add_key(ends: &mut Vec<u64>, met: &mut [u32], key: u64) -> Result<(), AllocError>
    ensures { OnOk result (AreAdded ends.old.items (key ∷ []) ends.new.items) }
{
    let slot = slot_of(key, met.len());
    if is_at(ends, noted(met, slot), key) {
        return Ok(());
    }
    note(met, slot, ends.len());
    ends.push(key)?;
    Ok(())
}

/// The index that a slot has.
fn noted(met: &[u32], slot: usize) -> usize {
    match met.get(slot) {
        Some(at) => *at as usize,
        None => 0,
    }
}

/// Lays the lowest 32 bits of an index into a slot.
fn note(met: &mut [u32], slot: usize, at: usize) {
    if slot < met.len() {
        met[slot] = (at % (1 << 32)) as u32;
    }
}

/// The slot of a key in a table of so many.
fn slot_of(key: u64, slots: usize) -> usize {
    let mixed = key.wrapping_mul(0x9e37_79b9_7f4a_7c15) >> 32;
    (mixed * (slots % (1 << 32)) as u64 >> 32) as usize
}

/// A list has a key at an index.
pub(crate) fn is_at(keys: &[u64], at: usize, key: u64) -> bool
    ensures { IsTrue result → (at < length keys.now) × (slice_index_or keys.now at 0 ≡ key) }
{
    at < keys.len() && keys[at] == key
}

/// An edge between two ranks as one number: the greater one in the low half, the lesser one in the
/// high half.
pub(crate) fn key(a: u32, b: u32) -> u64
    ensures value { result ≡ key_of a b }
{
    joined(a.min(b), a.max(b))
}

/// A number of 64 bits with these halves.
fn joined(low: u32, high: u32) -> u64
    ensures { result ≡ low * 2 ^ 32 + high }
{
    (low as u64) << 32 | high as u64
}

/// The lesser rank of a key.
pub(crate) fn low(key: u64) -> usize
    ensures value { result ≡ low_of key }
{
    (key >> 32) as usize
}

/// The greater rank of a key.
pub(crate) fn high(key: u64) -> usize
    ensures value { result ≡ high_of key }
{
    (key % (1 << 32)) as usize
}
