//! Pieces of several meshes joined, and the only piece of a mesh merged.

ghost use Rattle.std.specs.Prelude.{◌≡◌, ◌++◌, ◌∷◌, [], All, IfOk, OnOk, map, replicate};
ghost use Rattle.std.specs.List.{flat_map};
ghost use Rattle.viz_mesh_meaning.specs.Merge.{merged};
ghost use Rattle.viz_piece_divisions.specs.Answers.{IsOfMesh, parts_in};
ghost use Rattle.viz_piece_divisions.specs.Narrow.{sheets_of_parts};
ghost use Rattle.viz_mesh_parts.specs.Steps.{IsWholePart};

use crate::copies::push_copied;
use std::alloc::{AllocError, Global};
use viz_base::Shared;
use viz_merge::merge;
use viz_parts::{Part, PartSheet};
use viz_select::copied;
use viz_sheet::Sheet;

/// The parts of all inputs, one behind the other.
pub(crate) fn appended_parts(
    alloc: Global,
    inputs: &[Shared<Part>],
) -> Result<Vec<PartSheet>, AllocError>
    requires meshes { All IsOfMesh inputs.now }
    ensures { IfOk result (λ v. v.items ≡ flat_map parts_in inputs.now) }
{
    let mut parts = Vec::new(alloc);
    for input in inputs {
        push_part(alloc, &mut parts, input.get())?;
    }
    Ok(parts)
}

/// Adds the parts of one input.
fn push_part(alloc: Global, parts: &mut Vec<PartSheet>, input: &Part) -> Result<(), AllocError>
    requires mesh { IsOfMesh input.now }
    ensures { OnOk result (parts.new.items ≡ parts.old.items ++ parts_in input.now) }
{
    match input {
        Part::Mesh(more) => push_copied(alloc, parts, more),
        Part::Image(_) => unreachable!(),
    }
}

/// The merge of the sheets of parts, all of its cells own.
pub(crate) fn merged_parts(alloc: Global, parts: &[PartSheet]) -> Result<Vec<PartSheet>, AllocError>
    ensures { IfOk result (λ v. IsWholePart (merged (sheets_of_parts parts.now)) v.items) }
{
    let made = merged_sheet(alloc, parts)?;
    made.known();
    Ok(vec![in alloc; PartSheet::own(made)]?)
}

/// The merge of the sheets of parts. Several of them are copied first.
fn merged_sheet(alloc: Global, parts: &[PartSheet]) -> Result<Sheet, AllocError>
    ensures { IfOk result (λ s. s ≡ merged (sheets_of_parts parts.now)) }
{
    match parts {
        [only] => merge_one(alloc, only),
        _ => merge_several(alloc, parts),
    }
}

/// The merge of the sheet of a part.
fn merge_one(alloc: Global, part: &PartSheet) -> Result<Sheet, AllocError>
    ensures { IfOk result (λ s. s ≡ merged (part.now.sheet ∷ [])) }
{
    merge_of(alloc, std::slice::from_ref(part.sheet()))
}

/// The merge of the sheets of parts, which are copied.
fn merge_several(alloc: Global, parts: &[PartSheet]) -> Result<Sheet, AllocError>
    ensures { IfOk result (λ s. s ≡ merged (sheets_of_parts parts.now)) }
{
    let sheets = sheets_of(alloc, parts)?;
    merge_of(alloc, &sheets)
}

/// The sheets of parts, copied.
fn sheets_of(alloc: Global, parts: &[PartSheet]) -> Result<Vec<Sheet>, AllocError>
    ensures { IfOk result (λ v. v.items ≡ sheets_of_parts parts.now) }
{
    let mut sheets = Vec::with_capacity(alloc, parts.len())?;
    for part in parts {
        sheets.push(copied(alloc, part.sheet())?)?;
    }
    Ok(sheets)
}

/// The merge of sheets.
fn merge_of(alloc: Global, sheets: &[Sheet]) -> Result<Sheet, AllocError>
    ensures { IfOk result (λ s. s ≡ merged sheets.now) }
{
    let mesh = merge(alloc, sheets)?;
    match mesh.into_sheets().pop() {
        Some(made) => Ok(made),
        None => unreachable!(),
    }
}
