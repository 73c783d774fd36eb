//! The strips of triangles by any names.

ghost use Rattle.std.specs.Prelude.{◌≡◌, ◌<◌, ◌≤◌, ◌^◌, All, IfOk, IsTrue, length, map, slice_index};
ghost use Rattle.std.specs.List.Sorted.{IsStrictlySortedBy};
ghost use Rattle.std.specs.Ordering.{nat_cmp};
ghost use Rattle.viz_strip.specs.Kept.{KeepTriangles};
ghost use Rattle.viz_strip.specs.Steps.Named.{AreRanksOf, IsRankOf, name_at};
ghost use Rattle.viz_strip.specs.Strips.{AreStrips, IsTriangle};
ghost use Rattle.viz_strip.specs.Names.{names_of};

use crate::choice::ranked_strips;
use crate::rows::Rows;
use std::alloc::{AllocError, Global};

/// A strip by the names of its points, at least three: each name behind the second makes a triangle
/// with the two before it, and each other triangle is turned.
#[derive(Debug, Drop)]
pub struct Strip {
    pub names: Vec<u64>,
}

/// The strips of triangles of three different names each.
///
/// A strip begins with the first triangle that is left, in the first of its rotations that another
/// one continues, and takes the first triangle that continues it, again and again. Of more than
/// 2^30 triangles it answers as for want of memory.
pub fn strips(alloc: Global, triangles: &[[u64; 3]]) -> Result<Vec<Strip>, AllocError>
    requires triangles { All IsTriangle triangles.now }
    ensures chosen { IfOk result (λ v. AreStrips triangles.now (names_of v.items)) }
    ensures kept { IfOk result (λ v. KeepTriangles triangles.now (names_of v.items)) }
{
    let names = names_in_order(alloc, triangles)?;
    if names.len() > 1 << 32 {
        return Err(AllocError);
    }
    let ranks = ranks_of(alloc, &names, triangles)?;
    let strips = strips_of_ranks(alloc, &names, triangles, &ranks)?;
    Ok(strips)
}

/// The same by the ranks of their names.
fn strips_of_ranks(
    alloc: Global,
    names: &[u64],
    _triangles: &[[u64; 3]],
    ranks: &[[u32; 3]],
) -> Result<Vec<Strip>, AllocError>
    requires ascending { IsStrictlySortedBy nat_cmp names.now }
    requires triangles { All IsTriangle _triangles.now }
    requires ranks { AreRanksOf names.now _triangles.now ranks.now }
    ensures chosen { IfOk result (λ v. AreStrips _triangles.now (names_of v.items)) }
    ensures kept { IfOk result (λ v. KeepTriangles _triangles.now (names_of v.items)) }
{
    let rows = ranked_strips(alloc, names.len(), ranks)?;
    let strips = named_rows(alloc, names, &rows)?;
    Ok(strips)
}

/// The names of triangles, each once, ascending.
fn names_in_order(alloc: Global, triangles: &[[u64; 3]]) -> Result<Vec<u64>, AllocError>
    ensures { IfOk result (λ v. IsStrictlySortedBy nat_cmp v.items) }
{
    let mut names = all_names(alloc, triangles)?;
    names.sort_unstable();
    names.dedup();
    Ok(names)
}

/// The names of triangles, one behind the other.
fn all_names(alloc: Global, triangles: &[[u64; 3]]) -> Result<Vec<u64>, AllocError> {
    let mut names = Vec::new(alloc);
    for triangle in triangles {
        names.extend_from_slice(triangle)?;
    }
    Ok(names)
}

/// Triangles by the ranks of their names.
fn ranks_of(
    alloc: Global,
    names: &[u64],
    triangles: &[[u64; 3]],
) -> Result<Vec<[u32; 3]>, AllocError>
    requires few { length names.now ≤ 2 ^ 32 }
    ensures { IfOk result (λ v. AreRanksOf names.now triangles.now v.items) }
{
    let mut ranks = Vec::with_capacity(alloc, triangles.len())?;
    for triangle in triangles {
        ranks.push(three_ranks(names, *triangle)?)?;
    }
    Ok(ranks)
}

/// The ranks of a triangle's names.
fn three_ranks(names: &[u64], triangle: [u64; 3]) -> Result<[u32; 3], AllocError>
    requires few { length names.now ≤ 2 ^ 32 }
    ensures { IfOk result (λ r. IsRankOf names.now triangle r) }
{
    let [a, b, c] = triangle;
    let (a, b, c) = (rank(names, a)?, rank(names, b)?, rank(names, c)?);
    Ok([a, b, c])
}

/// The rank of a name, which is looked for first where it stands if the names are all numbers from
/// 0 on.
fn rank(names: &[u64], name: u64) -> Result<u32, AllocError>
    requires few { length names.now ≤ 2 ^ 32 }
    ensures { IfOk result (λ r. (r < length names.now) × (slice_index names.now r ≡ name)) }
{
    if name < names.len() as u64 && names[name as usize] == name {
        return Ok(name as u32);
    }
    match names.binary_search(&name) {
        Ok(index) => Ok(index as u32),
        Err(_) => Err(AllocError),
    }
}

/// Rows of ranks as strips by names.
fn named_rows(alloc: Global, names: &[u64], rows: &Rows) -> Result<Vec<Strip>, AllocError>
    ensures { IfOk result (λ v. names_of v.items ≡ map (map (name_at names.now)) rows.now) }
{
    let mut strips = Vec::with_capacity(alloc, rows.len())?;
    for index in 0..rows.len() {
        strips.push(named(alloc, names, rows.get(index))?)?;
    }
    Ok(strips)
}

/// A row of ranks as a strip by names.
fn named(alloc: Global, names: &[u64], row: &[u32]) -> Result<Strip, AllocError>
    ensures { IfOk result (λ s. s.names.items ≡ map (name_at names.now) row.now) }
{
    let mut strip = Vec::with_capacity(alloc, row.len())?;
    for rank in row {
        strip.push(name_of(names, *rank))?;
    }
    Ok(Strip { names: strip })
}

/// The name of a rank.
fn name_of(names: &[u64], rank: u32) -> u64
    ensures { result ≡ name_at names.now rank }
{
    match names.get(rank as usize) {
        Some(name) => *name,
        None => 0,
    }
}
