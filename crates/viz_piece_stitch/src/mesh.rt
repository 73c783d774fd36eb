//! A mesh, put together of all its pieces.

ghost use Rattle.std.specs.Prelude.{◌≡◌, ◌<◌, ◌-◌, All, IfOk, length, map};
ghost use Rattle.viz_parts.specs.Stitching.{ArePiecesOf};
ghost use Rattle.viz_piece_stitch.specs.Steps.Columns.{AreJoinedSheets, IsJoinedSheet, IsMeshOf};
ghost use Rattle.viz_piece_stitch.specs.Steps.Columns.{sheets_at};
ghost use Rattle.viz_piece_stitch.specs.Steps.Wholes.{ArePieces};

use crate::shared_sheet::parts_of;
use crate::sheet::joined_sheet;
use std::alloc::{AllocError, Global};
use viz_base::Shared;
use viz_parts::{Part, PartSheet};
use viz_sheet::{Mesh, Sheet};

/// The mesh of which these are all pieces, in turn. The only piece is taken over as it stands,
/// where it has no other owner.
pub(crate) fn stitched_mesh(alloc: Global, parts: Vec<Shared<Part>>) -> Result<Mesh, AllocError>
    requires { ArePieces parts.items }
    ensures { IfOk result (λ mesh. (sheets : _) → ArePiecesOf sheets parts.items → mesh ≡ sheets) }
{
    if parts.len() == 1 {
        return only_mesh(alloc, parts);
    }
    joined_mesh(alloc, parts)
}

/// The mesh of its only piece.
fn only_mesh(alloc: Global, parts: Vec<Shared<Part>>) -> Result<Mesh, AllocError>
    requires one { length parts.items ≡ 1 }
    requires pieces { ArePieces parts.items }
    ensures { IfOk result (λ mesh. (sheets : _) → ArePiecesOf sheets parts.items → mesh ≡ sheets) }
{
    let mut parts = parts;
    let Some(part) = parts.pop() else {
        unreachable!()
    };
    match part.try_unwrap() {
        Ok(Part::Mesh(sheets)) => Ok(Mesh::new(sheets_of(alloc, sheets)?)),
        Ok(Part::Image(_)) => unreachable!(),
        Err(part) => {
            parts.push(part)?;
            joined_mesh(alloc, parts)
        }
    }
}

/// The sheets of parts, in order.
fn sheets_of(alloc: Global, parts: Vec<PartSheet>) -> Result<Vec<Sheet>, AllocError>
    ensures { IfOk result (λ v. v.items ≡ map (λ p. p.sheet) parts.items) }
{
    let mut sheets = Vec::with_capacity(alloc, parts.len())?;
    for part in parts {
        sheets.push(part.into_sheet())?;
    }
    Ok(sheets)
}

/// The mesh of several pieces.
fn joined_mesh(alloc: Global, parts: Vec<Shared<Part>>) -> Result<Mesh, AllocError>
    requires { ArePieces parts.items }
    ensures { IfOk result (λ mesh. (sheets : _) → ArePiecesOf sheets parts.items → mesh ≡ sheets) }
{
    let count = sheet_count(&parts);
    Ok(Mesh::new(joined_sheets(alloc, count, parts)?))
}

/// How many sheets the first piece has.
fn sheet_count(parts: &[Shared<Part>]) -> usize
    requires { ArePieces parts.now }
    ensures { All (IsMeshOf result) parts.now }
{
    match parts.first() {
        Some(part) => match part.get() {
            Part::Mesh(sheets) => sheets.len(),
            Part::Image(_) => unreachable!(),
        },
        None => unreachable!(),
    }
}

/// Each of so many sheets, of its parts. A piece is given up as soon as its last sheet is joined.
fn joined_sheets(
    alloc: Global,
    count: usize,
    parts: Vec<Shared<Part>>,
) -> Result<Vec<Sheet>, AllocError>
    requires pieces { ArePieces parts.items }
    requires meshes { All (IsMeshOf count) parts.items }
    ensures { IfOk result (λ v. AreJoinedSheets count parts.items v.items) }
{
    if count == 0 {
        return Ok(Vec::new(alloc));
    }
    let mut sheets = first_sheets(alloc, count, &parts)?;
    sheets.push(given_sheet(alloc, count, count - 1, parts)?)?;
    Ok(sheets)
}

/// Each sheet but the last one of so many.
fn first_sheets(
    alloc: Global,
    count: usize,
    parts: &[Shared<Part>],
) -> Result<Vec<Sheet>, AllocError>
    requires some { 0 < count }
    requires pieces { ArePieces parts.now }
    requires meshes { All (IsMeshOf count) parts.now }
    ensures { IfOk result (λ v. AreJoinedSheets (count - 1) parts.now v.items) }
{
    let mut sheets = Vec::with_capacity(alloc, count)?;
    for sheet in 0..count - 1 {
        sheets.push(given_sheet(alloc, count, sheet, parts.to_vec(alloc)?)?)?;
    }
    Ok(sheets)
}

/// One of so many sheets, of its parts, each of which is given up as soon as it is joined.
fn given_sheet(
    alloc: Global,
    count: usize,
    sheet: usize,
    parts: Vec<Shared<Part>>,
) -> Result<Sheet, AllocError>
    requires within { sheet < count }
    requires pieces { ArePieces parts.items }
    requires meshes { All (IsMeshOf count) parts.items }
    ensures { IfOk result (IsJoinedSheet (sheets_at sheet parts.items)) }
{
    joined_sheet(alloc, parts_of(alloc, sheet, parts)?)
}
