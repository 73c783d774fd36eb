//! The filters of meshes over parts of meshes, as the executive asks for them.

ghost use Rattle.std.specs.Prelude.{◌≡◌, All, Err, IfOk, OnOk};
ghost use Rattle.viz_piece_divisions.specs.Answers.{IsAppendedAnswer, IsBoundaryAnswer, IsFitPart};
ghost use Rattle.viz_piece_divisions.specs.Answers.{IsMergedAnswer, IsNarrowPart, IsOfMesh};
ghost use Rattle.viz_piece_divisions.specs.Answers.{IsSectionAnswer, IsSelectedAnswer, parts_in};

use crate::bounding::bounded_parts;
use crate::joining::{appended_parts, merged_parts};
use crate::sectioning::sectioned_parts;
use crate::selecting::selected_parts;
use std::alloc::{AllocError, Global};
use viz_base::Shared;
use viz_fraction::Form;
use viz_meaning::WorkStop;
use viz_parts::{Part, PartSheet};

/// The selection of a part: of its cells those all of whose corners have a scalar from `lo` to
/// `hi`, or any of them, with their ghost levels.
///
/// Of a piece of a mesh, with any number of ghost levels, it is that piece of the mesh's selection.
pub fn select_part(
    alloc: Global,
    input: &Part,
    lo: i64,
    hi: i64,
    all: bool,
) -> Result<Part, AllocError>
    requires mesh { IsOfMesh input.now }
    ensures answers { IfOk result (IsSelectedAnswer all lo hi input.now) }
{
    let made = selected_parts(alloc, parts_of(input), &lo, &hi, all)?;
    Ok(Part::Mesh(made))
}

/// The sections of a part by linear forms: of the first form those of all its sheets, then of the
/// next. A made cell has the ghost level of the cell that it lies in.
///
/// Of a piece of a mesh, with any number of ghost levels, it is that piece of the mesh's sections.
///
/// # Errors
///
/// `TooWide` only where a number of some section of the part is wide, and a part only where none
/// is. Want of memory may come in place of both.
pub fn section_part(alloc: Global, input: &Part, forms: &[Form]) -> Result<Part, WorkStop>
    requires mesh { IsOfMesh input.now }
    requires fit { IsFitPart input.now }
    ensures answers { IfOk result (IsSectionAnswer forms.now input.now) }
    ensures narrow { OnOk result (IsNarrowPart forms.now input.now) }
    ensures too_wide { result ≡ Err WorkStop.TooWide → IsNarrowPart forms.now input.now → ⊥ }
{
    let made = sectioned_parts(alloc, forms, parts_of(input))?;
    Ok(Part::Mesh(made))
}

/// The boundary of a part, without the facets of cells past a ghost level.
///
/// Of a piece of a mesh with one ghost level more it is that piece of the mesh's boundary: such a
/// part has all cells that meet those whose facets are given, so that a facet lies in no other cell
/// of the mesh where it lies in no other of the part.
pub fn boundary_part(alloc: Global, input: &Part, ghosts: u32) -> Result<Part, AllocError>
    requires mesh { IsOfMesh input.now }
    ensures answers { IfOk result (IsBoundaryAnswer ghosts input.now) }
{
    let made = bounded_parts(alloc, parts_of(input), ghosts)?;
    Ok(Part::Mesh(made))
}

/// The sheets of all inputs, in their order, copied.
///
/// Of one piece of several meshes, with one number of ghost levels, it is that piece of the joined
/// meshes.
pub fn append_parts(alloc: Global, inputs: &[Shared<Part>]) -> Result<Part, AllocError>
    requires meshes { All IsOfMesh inputs.now }
    ensures answers { IfOk result (IsAppendedAnswer inputs.now) }
{
    let made = appended_parts(alloc, inputs)?;
    Ok(Part::Mesh(made))
}

/// The merge of the sheets of a part, as one sheet.
///
/// Of the only piece of a mesh it is the only piece of the mesh's merge. Of 2^32 points or more it
/// answers as for want of memory.
pub fn merge_part(alloc: Global, input: &Part) -> Result<Part, AllocError>
    requires mesh { IsOfMesh input.now }
    ensures answers { IfOk result (IsMergedAnswer input.now) }
{
    let made = merged_parts(alloc, parts_of(input))?;
    Ok(Part::Mesh(made))
}

/// The parts of the sheets of a mesh.
fn parts_of(input: &Part) -> &[PartSheet]
    requires mesh { IsOfMesh input.now }
    ensures value { result.now ≡ parts_in input.now }
{
    match input {
        Part::Mesh(parts) => parts,
        Part::Image(_) => unreachable!(),
    }
}
