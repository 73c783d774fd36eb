//! Copies of sheets that are only lent.

ghost use Rattle.std.specs.Prelude.{◌≡◌, IfOk};
ghost use Rattle.viz_sheet.specs.Arrays.{names_in, points_in, ranks_in};

use crate::keeping::copy_of;
use std::alloc::{AllocError, Global};
use viz_sheet::{Leaves, Mesh, Mixed, Places, Ranks, Sheet};

/// A sheet with the same names, points and cells.
pub fn copied(alloc: Global, sheet: &Sheet) -> Result<Sheet, AllocError>
    ensures value { IfOk result (λ copy. copy ≡ sheet.now) }
{
    let leaves = copied_leaves(alloc, sheet.leaves())?;
    let places = copied_places(alloc, sheet.places())?;
    let ranks = copied_ranks(alloc, sheet.ranks())?;
    Ok(Sheet::new(leaves, places, ranks))
}

/// A mesh of such sheets.
pub fn copied_sheets(alloc: Global, sheets: &[Sheet]) -> Result<Mesh, AllocError>
    ensures value { IfOk result (λ mesh. mesh ≡ sheets.now) }
{
    let mut copies = Vec::with_capacity(alloc, sheets.len())?;
    for sheet in sheets {
        copies.push(copied(alloc, sheet)?)?;
    }
    Ok(Mesh::new(copies))
}

/// The same names.
fn copied_leaves(alloc: Global, leaves: &Leaves) -> Result<Leaves, AllocError>
    ensures { IfOk result (λ l. names_in l ≡ names_in leaves.now) }
{
    match leaves {
        Leaves::One(names) => Ok(Leaves::One(Vec::from_slice(alloc, names)?)),
        Leaves::Two(names) => Ok(Leaves::Two(Vec::from_slice(alloc, names)?)),
        Leaves::Four(names) => Ok(Leaves::Four(Vec::from_slice(alloc, names)?)),
        Leaves::Eight(names) => Ok(Leaves::Eight(Vec::from_slice(alloc, names)?)),
    }
}

/// The same points.
fn copied_places(alloc: Global, places: &Places) -> Result<Places, AllocError>
    ensures { IfOk result (λ p. points_in p ≡ points_in places.now) }
{
    match places {
        Places::Small(points) => Ok(Places::Small(Vec::from_slice(alloc, points)?)),
        Places::Wide(points) => Ok(Places::Wide(Vec::from_slice(alloc, points)?)),
    }
}

/// The same cells.
fn copied_ranks(alloc: Global, ranks: &Ranks) -> Result<Ranks, AllocError>
    ensures { IfOk result (λ r. ranks_in r ≡ ranks_in ranks.now) }
{
    match ranks {
        Ranks::Vertices(cells) => Ok(Ranks::Vertices(Vec::from_slice(alloc, cells)?)),
        Ranks::Lines(cells) => Ok(Ranks::Lines(Vec::from_slice(alloc, cells)?)),
        Ranks::Triangles(cells) => Ok(Ranks::Triangles(Vec::from_slice(alloc, cells)?)),
        Ranks::Tetrahedra(cells) => Ok(Ranks::Tetrahedra(Vec::from_slice(alloc, cells)?)),
        Ranks::Any(cells) => Ok(Ranks::Any(copied_mixed(alloc, cells)?)),
    }
}

/// The same cells of any size.
fn copied_mixed(alloc: Global, cells: &[Mixed]) -> Result<Vec<Mixed>, AllocError>
    ensures { IfOk result (λ v. v.items ≡ cells.now) }
{
    let mut copies = Vec::with_capacity(alloc, cells.len())?;
    for cell in cells {
        copies.push(copy_of(cell))?;
    }
    Ok(copies)
}
