//! Sheets with the leaves of a whole.

ghost use Rattle.std.specs.Prelude.{◌≡◌, ◌+◌, IfOk, map};
ghost use Rattle.viz_piece_layers.specs.Sheets.{shifted_sheet};
ghost use Rattle.viz_sheet.specs.Arrays.{names_in, points_in};

use std::alloc::{AllocError, Global};
use viz_fraction::{Point5, SmallPoint};
use viz_piece_layers::tetrahedra_parts_are_parts;
use viz_sheet::{Leaves, Places, Sheet};

/// The sheet with each leaf's number so much greater. Leaves past 32 bits are want of memory.
pub fn shifted(alloc: Global, sheet: Sheet, by: u32) -> Result<Sheet, AllocError>
    ensures value { IfOk result (λ s. s ≡ shifted_sheet by sheet) }
{
    if by == 0 {
        return Ok(sheet);
    }
    moved(alloc, sheet, by)
}

/// The same, with new arrays of names and points.
fn moved(alloc: Global, sheet: Sheet, by: u32) -> Result<Sheet, AllocError>
    ensures value { IfOk result (λ s. s ≡ shifted_sheet by sheet) }
{
    sheet.known();
    tetrahedra_parts_are_parts();
    let leaves = moved_leaves(alloc, sheet.leaves(), by)?;
    let places = copied(alloc, sheet.places())?;
    let ranks = sheet.into_ranks();
    Ok(Sheet::new(leaves, places, ranks))
}

/// The names with each leaf's number so much greater.
fn moved_leaves(alloc: Global, leaves: &Leaves, by: u32) -> Result<Leaves, AllocError>
    ensures { IfOk result (λ l. names_in l ≡ map (map (λ leaf. leaf + by)) (names_in leaves.now)) }
{
    match leaves {
        Leaves::One(names) => Ok(Leaves::One(moved_one(alloc, names, by)?)),
        Leaves::Two(names) => Ok(Leaves::Two(moved_two(alloc, names, by)?)),
        Leaves::Four(names) => Ok(Leaves::Four(moved_four(alloc, names, by)?)),
        Leaves::Eight(names) => Ok(Leaves::Eight(moved_eight(alloc, names, by)?)),
    }
}

/// The same of names of one leaf.
fn moved_one(alloc: Global, names: &[[u32; 1]], by: u32) -> Result<Vec<[u32; 1]>, AllocError>
    ensures { IfOk result (λ v. v.items ≡ map (map (λ leaf. leaf + by)) names.now) }
{
    let mut moved = Vec::with_capacity(alloc, names.len())?;
    for name in names {
        moved.push(one(name, by)?)?;
    }
    Ok(moved)
}

/// The same of names of two leaves.
fn moved_two(alloc: Global, names: &[[u32; 2]], by: u32) -> Result<Vec<[u32; 2]>, AllocError>
    ensures { IfOk result (λ v. v.items ≡ map (map (λ leaf. leaf + by)) names.now) }
{
    let mut moved = Vec::with_capacity(alloc, names.len())?;
    for name in names {
        moved.push(two(name, by)?)?;
    }
    Ok(moved)
}

/// The same of names of four leaves.
fn moved_four(alloc: Global, names: &[[u32; 4]], by: u32) -> Result<Vec<[u32; 4]>, AllocError>
    ensures { IfOk result (λ v. v.items ≡ map (map (λ leaf. leaf + by)) names.now) }
{
    let mut moved = Vec::with_capacity(alloc, names.len())?;
    for name in names {
        moved.push(four(name, by)?)?;
    }
    Ok(moved)
}

/// The same of names of eight leaves.
fn moved_eight(alloc: Global, names: &[[u32; 8]], by: u32) -> Result<Vec<[u32; 8]>, AllocError>
    ensures { IfOk result (λ v. v.items ≡ map (map (λ leaf. leaf + by)) names.now) }
{
    let mut moved = Vec::with_capacity(alloc, names.len())?;
    for name in names {
        moved.push(eight(name, by)?)?;
    }
    Ok(moved)
}

/// A name of one leaf, moved.
fn one(name: &[u32; 1], by: u32) -> Result<[u32; 1], AllocError>
    ensures { IfOk result (λ n. n ≡ map (λ leaf. leaf + by) name.now) }
{
    let [a] = *name;
    Ok([leaf(a, by)?])
}

/// A name of two leaves, moved.
fn two(name: &[u32; 2], by: u32) -> Result<[u32; 2], AllocError>
    ensures { IfOk result (λ n. n ≡ map (λ leaf. leaf + by) name.now) }
{
    let [a, b] = *name;
    Ok([leaf(a, by)?, leaf(b, by)?])
}

/// A name of four leaves, moved.
fn four(name: &[u32; 4], by: u32) -> Result<[u32; 4], AllocError>
    ensures { IfOk result (λ n. n ≡ map (λ leaf. leaf + by) name.now) }
{
    let [a, b, c, d] = *name;
    Ok([leaf(a, by)?, leaf(b, by)?, leaf(c, by)?, leaf(d, by)?])
}

/// A name of eight leaves, moved.
fn eight(name: &[u32; 8], by: u32) -> Result<[u32; 8], AllocError>
    ensures { IfOk result (λ n. n ≡ map (λ leaf. leaf + by) name.now) }
{
    let [a, b, c, d, e, f, g, h] = *name;
    let [a, b, c, d] = four(&[a, b, c, d], by)?;
    let [e, f, g, h] = four(&[e, f, g, h], by)?;
    Ok([a, b, c, d, e, f, g, h])
}

/// A leaf, moved.
fn leaf(leaf: u32, by: u32) -> Result<u32, AllocError>
    ensures { IfOk result (λ n. n ≡ leaf + by) }
{
    leaf.checked_add(by).ok_or(AllocError)
}

/// The same points.
fn copied(alloc: Global, places: &Places) -> Result<Places, AllocError>
    ensures { IfOk result (λ p. points_in p ≡ points_in places.now) }
{
    match places {
        Places::Small(points) => Ok(Places::Small(small_copied(alloc, points)?)),
        Places::Wide(points) => Ok(Places::Wide(wide_copied(alloc, points)?)),
    }
}

/// The same of points of 64 bits.
fn small_copied(alloc: Global, points: &[SmallPoint]) -> Result<Vec<SmallPoint>, AllocError>
    ensures { IfOk result (λ v. v.items ≡ points.now) }
{
    let mut copy = Vec::with_capacity(alloc, points.len())?;
    copy.extend_from_slice(points)?;
    Ok(copy)
}

/// The same of points of 128 bits.
fn wide_copied(alloc: Global, points: &[Point5]) -> Result<Vec<Point5>, AllocError>
    ensures { IfOk result (λ v. v.items ≡ points.now) }
{
    let mut copy = Vec::with_capacity(alloc, points.len())?;
    copy.extend_from_slice(points)?;
    Ok(copy)
}
