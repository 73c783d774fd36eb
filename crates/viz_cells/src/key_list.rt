//! The list of the keys that the cells of a section have.
ghost use Rattle.std.specs.Prelude.{◌≡◌, ◌<◌, [], ◌∷◌, IfOk, IsTrue, OnOk, length, slice_index_or};
ghost use Rattle.viz_cells.specs.Steps.Numbered.{AreAdded, AreEndsOf, AreKeysOf};

use crate::piece::Piece;
use std::alloc::{AllocError, Global};

/// The most slots of a table of keys that were met lately.
const MOST_SLOTS: usize = 1 << 20;

/// The keys of the ends, each once, ascending.
pub fn keys_in_order(alloc: Global, pieces: &[Piece]) -> Result<Vec<u64>, AllocError>
    ensures value { IfOk result (λ v. AreKeysOf pieces.now v.items) }
{
    let mut keys = ends(alloc, pieces)?;
    keys.sort_unstable();
    keys.dedup();
    Ok(keys)
}

/// The keys of the ends, in turn, most of them once: a key that was met lately isn't added again.
fn ends(alloc: Global, pieces: &[Piece]) -> Result<Vec<u64>, AllocError>
    ensures value { IfOk result (λ v. AreEndsOf pieces.now v.items) }
{
    let mut ends = Vec::new(alloc);
    let mut met = vec![in alloc; 0_u32; pieces.len().min(MOST_SLOTS)]?;
    for piece in pieces {
        add_keys(&mut ends, &mut met, piece.keys())?;
    }
    Ok(ends)
}

/// Adds keys that weren't met lately.
fn add_keys(ends: &mut Vec<u64>, met: &mut [u32], keys: &[u64]) -> Result<(), AllocError>
    ensures { OnOk result (AreAdded ends.old.items keys.now ends.new.items) }
{
    for key in keys {
        add_key(ends, met, *key)?;
    }
    Ok(())
}

/// Adds a key if it wasn't met lately. A slot of the table has an index that a key may have in the
/// list: nothing is promised of it, and it is looked at.
fn add_key(ends: &mut Vec<u64>, met: &mut [u32], key: u64) -> Result<(), AllocError>
    ensures { OnOk result (AreAdded ends.old.items (key ∷ []) ends.new.items) }
{
    let slot = slot_of(key, met.len());
    if is_at(ends, noted(met, slot), key) {
        return Ok(());
    }
    note(met, slot, ends.len());
    ends.push(key)?;
    Ok(())
}

/// The index that a slot has.
fn noted(met: &[u32], slot: usize) -> usize {
    match met.get(slot) {
        Some(at) => *at as usize,
        None => 0,
    }
}

/// Lays the lowest 32 bits of an index into a slot.
fn note(met: &mut [u32], slot: usize, at: usize) {
    if slot < met.len() {
        met[slot] = (at % (1 << 32)) as u32;
    }
}

/// The slot of a key in a table of so many.
fn slot_of(key: u64, slots: usize) -> usize {
    let mixed = key.wrapping_mul(0x9e37_79b9_7f4a_7c15) >> 32;
    (mixed * (slots % (1 << 32)) as u64 >> 32) as usize
}

/// A list has a key at an index.
pub(crate) fn is_at(keys: &[u64], at: usize, key: u64) -> bool
    ensures { IsTrue result → (at < length keys.now) × (slice_index_or keys.now at 0 ≡ key) }
{
    at < keys.len() && keys[at] == key
}
