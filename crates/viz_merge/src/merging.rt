//! The merge of sheets.

ghost use Rattle.std.specs.Prelude.{◌≡◌, ◌+◌, ◌<◌, ◌≤◌, ◌^◌, ◌++◌, ◌∷◌, [], All, IfOk, OnOk, drop};
ghost use Rattle.std.specs.Prelude.{length};
ghost use Rattle.std.specs.List.{filter, flat_map};
ghost use Rattle.viz_sheet.specs.Sheet.{IsSheet};
ghost use Rattle.viz_mesh_meaning.specs.Merge.{all_points, cells_by_leaves, firsts, has_no_repeat};
ghost use Rattle.viz_mesh_meaning.specs.Merge.{merged};
ghost use Rattle.viz_merge.specs.Steps.Cells.{AreNumbers, left_by_names};
ghost use Rattle.viz_merge.specs.Steps.Leads.{AreLeads};

use crate::cells::push_cells;
use crate::groups::marked_points;
use crate::keys::all_keys;
use crate::leads::leads_of;
use crate::numbers::{first_marks, numbers};
use std::alloc::{AllocError, Global};
use viz_sheet::{Leaves, Mesh, Mixed, Ranks, Sheet, sheet_of};

/// The merge of sheets: one sheet, in which the points at one position are one point, the first of
/// them by sheet and name, named by the rank of its group; and the cells of all sheets in turn,
/// without those that then have a point twice. Of 2^32 points or more it answers as for want of
/// memory.
pub fn merge(alloc: Global, sheets: &[Sheet]) -> Result<Mesh, AllocError>
    ensures value { IfOk result (λ mesh. mesh ≡ merged sheets.now ∷ []) }
{
    let sheet = merged(alloc, sheets)?;
    Ok(Mesh::new(vec![in alloc; sheet]?))
}

/// That sheet.
fn merged(alloc: Global, sheets: &[Sheet]) -> Result<Sheet, AllocError>
    ensures value { IfOk result (λ s. s ≡ merged sheets.now) }
{
    known(sheets);
    let leads = all_leads(alloc, sheets)?;
    let marks = first_marks(alloc, &leads)?;
    let places = marked_points(alloc, &marks, sheets)?;
    let numbers = numbers(alloc, &marks, &leads)?;
    let cells = all_cells(alloc, &numbers, sheets)?;
    let leaves = Leaves::of_points(alloc, places.len() as u32)?;
    let sheet = sheet_of(alloc, leaves, places, Ranks::Any(cells))?;
    Ok(sheet)
}

/// Says the rule of each sheet to a caller's proof; it does nothing.
fn known(sheets: &[Sheet])
    ensures { All IsSheet sheets.now }
{
    for sheet in sheets {
        sheet.known();
    }
}

/// For each of all points the first at its place.
fn all_leads(alloc: Global, sheets: &[Sheet]) -> Result<Vec<u32>, AllocError>
    ensures value { IfOk result (λ v. AreLeads (all_points sheets.now) v.items) }
    ensures few { IfOk result (λ v. length v.items < 2 ^ 32) }
{
    let mut keys = all_keys(alloc, sheets)?;
    keys.sort_unstable();
    let leads = leads_of(alloc, &keys)?;
    Ok(leads)
}

/// The cells of all sheets by the leaves of their points, without those that repeat one.
fn all_cells(alloc: Global, numbers: &[u32], sheets: &[Sheet]) -> Result<Vec<Mixed>, AllocError>
    requires numbers { AreNumbers (all_points sheets.now) numbers.now }
    ensures value { IfOk result (λ v. v.items ≡ filter has_no_repeat
        (flat_map (cells_by_leaves (firsts (all_points sheets.now))) sheets.now)) }
{
    let mut out = Vec::new(alloc);
    let mut at = 0;
    for sheet in sheets {
        push_sheet(&mut out, numbers, at, sheet)?;
        let count = sheet.places().len();
        at += count;
    }
    Ok(out)
}

/// Adds those of one sheet whose first point has an index.
fn push_sheet(
    out: &mut Vec<Mixed>,
    numbers: &[u32],
    at: usize,
    sheet: &Sheet,
) -> Result<(), AllocError>
    requires room { at + length sheet.now.points ≤ length numbers.now }
    ensures value { OnOk result (out.new.items
        ≡ out.old.items ++ left_by_names (drop at numbers.now) sheet.now) }
    ensures valid { IsSheet sheet.now }
{
    sheet.known();
    push_cells(out, &numbers[at..], sheet.ranks())?;
    Ok(())
}
