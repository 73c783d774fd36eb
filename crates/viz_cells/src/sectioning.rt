//! The section of a sheet, and those of sheets.
ghost use Rattle.std.specs.Prelude.{◌≡◌, ◌++◌, All, IfOk, OnOk, map};
ghost use Rattle.viz_meaning.specs.Narrow.{IsNarrowSection, AreNarrowSections};
ghost use Rattle.viz_meaning.specs.Section.{section_of, sections_of};
ghost use Rattle.viz_sheet.specs.Sheet.{IsFit};

use crate::crossings::crossings;
use crate::insides::insides;
use crate::joined::joined;
use crate::key_list::keys_in_order;
use crate::numbering::numbered;
use crate::pieces::pieces;
use std::alloc::Global;
use viz_fraction::Form;
use viz_meaning::WorkStop;
use viz_sheet::{Mesh, Sheet};

/// The section of a sheet by a linear form, whose names have twice as many leaves as those of the
/// sheet.
///
/// # Errors
///
/// `TooWide` only where a number of the section is wide, and a section only where none is. Want of
/// memory may come in place of both.
pub fn section(alloc: Global, form: &Form, sheet: &Sheet) -> Result<Sheet, WorkStop>
    requires fit { IsFit sheet.now }
    ensures value { IfOk result (λ s. s ≡ section_of form.now sheet.now) }
    ensures narrow { OnOk result (IsNarrowSection form.now sheet.now) }
    ensures too_wide { result ≡ Err WorkStop.TooWide
        → IsNarrowSection form.now sheet.now → ⊥ }
{
    // What the array of names tells of their lengths.
    let _size = sheet.leaves().size();
    let inside = insides(alloc, form, sheet.places())?;
    let pieces = pieces(alloc, &inside, sheet.ranks())?;
    let keys = keys_in_order(alloc, &pieces)?;
    if keys.len() as u64 > 1 << 32 {
        return Err(WorkStop::Memory);
    }
    let places = crossings(alloc, form, sheet.places(), &keys)?;
    let leaves = joined(alloc, sheet.leaves(), &keys)?;
    let ranks = numbered(alloc, &keys, &pieces)?;
    Ok(Sheet::new(leaves, places, ranks))
}

/// The sections of sheets by linear forms, one sheet for each: all of the first form, then all of
/// the next.
///
/// # Errors
///
/// `TooWide` only where a number of some section is wide, and sections only where none is. Want of
/// memory may come in place of both.
pub fn sections(alloc: Global, forms: &[Form], sheets: &[Sheet]) -> Result<Mesh, WorkStop>
    requires fit { All IsFit sheets.now }
    ensures value { IfOk result (λ mesh. mesh ≡ sections_of forms.now sheets.now) }
    ensures narrow { OnOk result (AreNarrowSections forms.now sheets.now) }
    ensures too_wide { result ≡ Err WorkStop.TooWide
        → AreNarrowSections forms.now sheets.now → ⊥ }
{
    let mut out = Vec::with_capacity(alloc, forms.len().saturating_mul(sheets.len()))?;
    for form in forms {
        push_sections(alloc, &mut out, form, sheets)?;
    }
    Ok(Mesh::new(out))
}

/// Adds the section of each sheet by one form.
fn push_sections(
    alloc: Global,
    out: &mut Vec<Sheet>,
    form: &Form,
    sheets: &[Sheet],
) -> Result<(), WorkStop>
    requires fit { All IsFit sheets.now }
    ensures value { OnOk result
        (out.new.items ≡ out.old.items ++ map (section_of form.now) sheets.now) }
    ensures narrow { OnOk result (All (IsNarrowSection form.now) sheets.now) }
    ensures too_wide { result ≡ Err WorkStop.TooWide
        → All (IsNarrowSection form.now) sheets.now → ⊥ }
{
    for sheet in sheets {
        out.push(section(alloc, form, sheet)?)?;
    }
    Ok(())
}
