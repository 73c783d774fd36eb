//! The keys of all facets of cells, grouped.

ghost use Rattle.std.specs.Prelude.{◌≡◌, ◌+◌, ◌*◌, ◌<◌, ◌≤◌, ◌^◌, ◌++◌, [], ◌∷◌, All, IfOk, OnOk};
ghost use Rattle.std.specs.Prelude.{length};
ghost use Rattle.std.specs.List.{flat_map};
ghost use Rattle.std.specs.List.Sorted.{IsPermutation};
ghost use Rattle.viz_sheet.specs.Arrays.{ranks_in};
ghost use Rattle.viz_mesh_meaning.specs.Facets.{facets_of};
ghost use Rattle.viz_boundary.specs.Steps.Keys.{keyed_from};
ghost use Rattle.viz_boundary.specs.Steps.Slots.{held};

use crate::facets::facet_count;
use crate::packing::{key_of_one, key_of_three, key_of_two};
use crate::slots::Slots;
use std::alloc::{AllocError, Global};
use viz_sheet::Ranks;

/// The keys of the facets of all cells, of which there are at most 2^30, in groups that are sorted;
/// nothing is promised of their order. The ranks are below a number of points.
pub(crate) fn facet_keys(
    alloc: Global,
    points: usize,
    ranks: &Ranks,
) -> Result<Vec<u128>, AllocError>
    requires few { length (ranks_in ranks.now) ≤ 2 ^ 30 }
    requires most { All (λ cell. length cell ≤ 4) (ranks_in ranks.now) }
    ensures value { IfOk result (λ v.
        IsPermutation (keyed_from 0 (flat_map facets_of (ranks_in ranks.now))) v.items) }
{
    let mut slots = Slots::of_cells(alloc, points, ranks)?;
    let mut at = 0;
    for i in 0..ranks.len() {
        let cell = ranks.get(i);
        put_cell(&mut slots, at, cell)?;
        at += facet_count(cell);
    }
    let keys = slots.into_keys()?;
    Ok(keys)
}

/// Adds the keys of a cell's facets.
fn put_cell(slots: &mut Slots, at: usize, cell: &[u32]) -> Result<(), AllocError>
    requires room { at + 4 ≤ 2 ^ 32 }
    requires most { length cell.now ≤ 4 }
    ensures value { OnOk result (IsPermutation
        (held slots.old ++ keyed_from at (facets_of cell.now)) (held slots.new)) }
{
    match cell {
        [a, b] => put_two(slots, at as u32, *a, *b),
        [a, b, c] => put_three(slots, at as u32, *a, *b, *c),
        [a, b, c, d] => put_four(slots, at as u32, *a, *b, *c, *d),
        _ => Ok(()),
    }
}

/// Adds the keys of both ends of a line.
fn put_two(slots: &mut Slots, at: u32, a: u32, b: u32) -> Result<(), AllocError>
    requires room { at + 4 ≤ 2 ^ 32 }
    ensures value { OnOk result (IsPermutation
        (held slots.old ++ keyed_from at (facets_of (a ∷ b ∷ []))) (held slots.new)) }
{
    slots.put(key_of_one(b, at))?;
    slots.put(key_of_one(a, at + 1))?;
    Ok(())
}

/// Adds the keys of a triangle's sides.
fn put_three(slots: &mut Slots, at: u32, a: u32, b: u32, c: u32) -> Result<(), AllocError>
    requires room { at + 4 ≤ 2 ^ 32 }
    ensures value { OnOk result (IsPermutation
        (held slots.old ++ keyed_from at (facets_of (a ∷ b ∷ c ∷ []))) (held slots.new)) }
{
    slots.put(key_of_two(b, c, at))?;
    slots.put(key_of_two(c, a, at + 1))?;
    slots.put(key_of_two(a, b, at + 2))?;
    Ok(())
}

/// Adds the keys of a tetrahedron's sides.
fn put_four(slots: &mut Slots, at: u32, a: u32, b: u32, c: u32, d: u32) -> Result<(), AllocError>
    requires room { at + 4 ≤ 2 ^ 32 }
    ensures value { OnOk result (IsPermutation
        (held slots.old ++ keyed_from at (facets_of (a ∷ b ∷ c ∷ d ∷ []))) (held slots.new)) }
{
    slots.put(key_of_three(b, c, d, at))?;
    slots.put(key_of_three(c, a, d, at + 1))?;
    slots.put(key_of_three(a, b, d, at + 2))?;
    slots.put(key_of_three(b, a, c, at + 3))?;
    Ok(())
}
