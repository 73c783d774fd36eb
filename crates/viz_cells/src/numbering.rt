//! The cells of a section by the ranks of their ends.
ghost use Rattle.std.specs.Prelude.{◌≡◌, ◌↔◌, ◌<◌, ◌≤◌, ◌^◌, All, Contains, IfOk, IsTrue, length};
ghost use Rattle.std.specs.Prelude.{slice_index_or, take};
ghost use Rattle.std.specs.List.Sorted.{IsStrictlySortedBy};
ghost use Rattle.std.specs.Ordering.{nat_cmp};
ghost use Rattle.viz_sheet.specs.Arrays.{ranks_in};
ghost use Rattle.viz_cells.specs.Steps.Numbered.{AreNumbered, HasKeys, IsNumbered};

use crate::key_list::is_at;
use crate::piece::Piece;
use crate::starts::{LOOKED_AT, Starts};
use std::alloc::{AllocError, Global};
use viz_sheet::{Mixed, Ranks};

/// The cells with the rank of each key, in the array of their size where all have one.
pub fn numbered(alloc: Global, keys: &[u64], pieces: &[Piece]) -> Result<Ranks, AllocError>
    requires keys { HasKeys keys.now pieces.now }
    ensures value { IfOk result (λ r. AreNumbered keys.now pieces.now (ranks_in r)) }
{
    let starts = Starts::of_keys(alloc, keys)?;
    if have_size(pieces, 3) {
        return Ok(Ranks::Triangles(triangles(alloc, keys, &starts, pieces)?));
    }
    if have_size(pieces, 2) {
        return Ok(Ranks::Lines(lines(alloc, keys, &starts, pieces)?));
    }
    if have_size(pieces, 1) {
        return Ok(Ranks::Vertices(vertices(alloc, keys, &starts, pieces)?));
    }
    Ok(Ranks::Any(mixed(alloc, keys, &starts, pieces)?))
}

/// Each cell has so many ends.
fn have_size(pieces: &[Piece], size: usize) -> bool
    ensures { IsTrue result ↔ All (λ piece. length piece ≡ size) pieces.now }
{
    for piece in pieces {
        if piece.keys().len() != size {
            return false;
        }
    }
    true
}

/// Cells of three ends.
fn triangles(
    alloc: Global,
    keys: &[u64],
    starts: &Starts,
    pieces: &[Piece],
) -> Result<Vec<[u32; 3]>, AllocError>
    requires keys { HasKeys keys.now pieces.now }
    requires sized { All (λ piece. length piece ≡ 3) pieces.now }
    ensures { IfOk result (λ v. AreNumbered keys.now pieces.now v.items) }
{
    let mut cells = Vec::with_capacity(alloc, pieces.len())?;
    for piece in pieces {
        cells.push(three(keys, starts, piece.keys()))?;
    }
    Ok(cells)
}

/// Cells of two ends.
fn lines(
    alloc: Global,
    keys: &[u64],
    starts: &Starts,
    pieces: &[Piece],
) -> Result<Vec<[u32; 2]>, AllocError>
    requires keys { HasKeys keys.now pieces.now }
    requires sized { All (λ piece. length piece ≡ 2) pieces.now }
    ensures { IfOk result (λ v. AreNumbered keys.now pieces.now v.items) }
{
    let mut cells = Vec::with_capacity(alloc, pieces.len())?;
    for piece in pieces {
        cells.push(two(keys, starts, piece.keys()))?;
    }
    Ok(cells)
}

/// Cells of one end.
fn vertices(
    alloc: Global,
    keys: &[u64],
    starts: &Starts,
    pieces: &[Piece],
) -> Result<Vec<[u32; 1]>, AllocError>
    requires keys { HasKeys keys.now pieces.now }
    requires sized { All (λ piece. length piece ≡ 1) pieces.now }
    ensures { IfOk result (λ v. AreNumbered keys.now pieces.now v.items) }
{
    let mut cells = Vec::with_capacity(alloc, pieces.len())?;
    for piece in pieces {
        cells.push(one(keys, starts, piece.keys()))?;
    }
    Ok(cells)
}

/// Cells of any number of ends.
fn mixed(
    alloc: Global,
    keys: &[u64],
    starts: &Starts,
    pieces: &[Piece],
) -> Result<Vec<Mixed>, AllocError>
    requires keys { HasKeys keys.now pieces.now }
    ensures { IfOk result (λ v. AreNumbered keys.now pieces.now v.items) }
{
    let mut cells = Vec::with_capacity(alloc, pieces.len())?;
    for piece in pieces {
        cells.push(any(keys, starts, piece.keys()))?;
    }
    Ok(cells)
}

/// The ranks of three keys.
fn three(keys: &[u64], starts: &Starts, piece: &[u64]) -> [u32; 3]
    requires ascending { IsStrictlySortedBy nat_cmp keys.now }
    requires few { length keys.now ≤ 2 ^ 32 }
    requires has { All (Contains keys.now) piece.now }
    requires size { length piece.now ≡ 3 }
    ensures value { IsNumbered keys.now piece.now result }
{
    [
        rank(keys, starts, piece[0]),
        rank(keys, starts, piece[1]),
        rank(keys, starts, piece[2]),
    ]
}

/// The ranks of two keys.
fn two(keys: &[u64], starts: &Starts, piece: &[u64]) -> [u32; 2]
    requires ascending { IsStrictlySortedBy nat_cmp keys.now }
    requires few { length keys.now ≤ 2 ^ 32 }
    requires has { All (Contains keys.now) piece.now }
    requires size { length piece.now ≡ 2 }
    ensures value { IsNumbered keys.now piece.now result }
{
    [rank(keys, starts, piece[0]), rank(keys, starts, piece[1])]
}

/// The rank of one key.
fn one(keys: &[u64], starts: &Starts, piece: &[u64]) -> [u32; 1]
    requires ascending { IsStrictlySortedBy nat_cmp keys.now }
    requires few { length keys.now ≤ 2 ^ 32 }
    requires has { All (Contains keys.now) piece.now }
    requires size { length piece.now ≡ 1 }
    ensures value { IsNumbered keys.now piece.now result }
{
    [rank(keys, starts, piece[0])]
}

/// The ranks of up to three keys.
fn any(keys: &[u64], starts: &Starts, piece: &[u64]) -> Mixed
    requires ascending { IsStrictlySortedBy nat_cmp keys.now }
    requires few { length keys.now ≤ 2 ^ 32 }
    requires has { All (Contains keys.now) piece.now }
    requires most { length piece.now ≤ 3 }
    ensures value { IsNumbered keys.now piece.now result }
{
    let ranks = [
        rank_of(keys, starts, piece, 0),
        rank_of(keys, starts, piece, 1),
        rank_of(keys, starts, piece, 2),
        0,
    ];
    Mixed::new(piece.len() as u8, ranks)
}

/// The rank of one of the keys, and filler behind the last one.
fn rank_of(keys: &[u64], starts: &Starts, piece: &[u64], i: usize) -> u32
    requires ascending { IsStrictlySortedBy nat_cmp keys.now }
    requires few { length keys.now ≤ 2 ^ 32 }
    requires has { All (Contains keys.now) piece.now }
    ensures below { i < length piece.now → result < length keys.now }
    ensures value { i < length piece.now
        → slice_index_or keys.now result 0 ≡ slice_index_or piece.now i 0 }
{
    if i < piece.len() {
        rank(keys, starts, piece[i])
    } else {
        0
    }
}

/// The rank of a key: its index, which is looked for where the key may stand, and then among all.
fn rank(keys: &[u64], starts: &Starts, key: u64) -> u32
    requires ascending { IsStrictlySortedBy nat_cmp keys.now }
    requires few { length keys.now ≤ 2 ^ 32 }
    requires has { Contains keys.now key }
    ensures below { result < length keys.now }
    ensures value { slice_index_or keys.now result 0 ≡ key }
{
    let start = starts.guess(key);
    for at in start..start.saturating_add(LOOKED_AT) {
        if is_at(keys, at, key) {
            return at as u32;
        }
    }
    searched(keys, key)
}

/// The rank of a key by a search.
fn searched(keys: &[u64], key: u64) -> u32
    requires ascending { IsStrictlySortedBy nat_cmp keys.now }
    requires few { length keys.now ≤ 2 ^ 32 }
    requires has { Contains keys.now key }
    ensures below { result < length keys.now }
    ensures value { slice_index_or keys.now result 0 ≡ key }
{
    match keys.binary_search(&key) {
        Ok(index) => index as u32,
        Err(_) => 0,
    }
}
