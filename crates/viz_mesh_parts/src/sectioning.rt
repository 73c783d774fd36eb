//! Sections of parts.

ghost use Rattle.std.specs.Prelude.{◌≡◌, ◌≤◌, ◌<◌, ◌^◌, ◌++◌, All, IfOk, OnOk, Err, false, length};
ghost use Rattle.std.specs.Prelude.{map, slice_index, slice_index_or, ◌∷◌, [], int_le, pos};
ghost use Rattle.viz_fraction.specs.Cases.{cells_at};
ghost use Rattle.viz_fraction.specs.Forms.{IsNarrowValue};
ghost use Rattle.viz_meaning.specs.Narrow.{IsNarrowSection};
ghost use Rattle.viz_meaning.specs.Section.{is_inside_at, mask_of};
ghost use Rattle.viz_piece_divisions.specs.Divisions.{section_parts};
ghost use Rattle.viz_piece_filters.specs.Filters.{handed_section, section_part};
ghost use Rattle.viz_sheet.specs.Arrays.{points_in};
ghost use Rattle.viz_sheet.specs.Sheet.{IsFit};

use crate::levels::{are_own, push_copies};
use std::alloc::{AllocError, Global};
use viz_cells::section;
use viz_fraction::{Form, Point5, cells_of, is_inside, value};
use viz_meaning::WorkStop;
use viz_parts::PartSheet;
use viz_sheet::{Places, Sheet};

/// The sections of parts by forms, a part for each: all of the first form, then all of the next.
///
/// # Errors
///
/// `TooWide` only where a number of some section is wide, and parts only where none is.
pub(crate) fn sectioned_parts(
    alloc: Global,
    forms: &[Form],
    parts: &[PartSheet],
) -> Result<Vec<PartSheet>, WorkStop>
    requires fit { All (λ p. IsFit p.sheet) parts.now }
    ensures value { IfOk result (λ v. v.items ≡ section_parts forms.now parts.now) }
    ensures narrow { OnOk result (All
        (λ f. All (λ p. IsNarrowSection f p.sheet) parts.now) forms.now) }
    ensures too_wide { result ≡ Err WorkStop.TooWide
        → All (λ f. All (λ p. IsNarrowSection f p.sheet) parts.now) forms.now → ⊥ }
{
    let mut out = Vec::with_capacity(alloc, forms.len().saturating_mul(parts.len()))?;
    for form in forms {
        push_sections(alloc, &mut out, form, parts)?;
    }
    Ok(out)
}

/// Adds the section of each part by one form.
fn push_sections(
    alloc: Global,
    out: &mut Vec<PartSheet>,
    form: &Form,
    parts: &[PartSheet],
) -> Result<(), WorkStop>
    requires fit { All (λ p. IsFit p.sheet) parts.now }
    ensures value { OnOk result
        (out.new.items ≡ out.old.items ++ map (section_part form.now) parts.now) }
    ensures narrow { OnOk result (All (λ p. IsNarrowSection form.now p.sheet) parts.now) }
    ensures too_wide { result ≡ Err WorkStop.TooWide
        → All (λ p. IsNarrowSection form.now p.sheet) parts.now → ⊥ }
{
    for part in parts {
        out.push(sectioned_part(alloc, form, part)?)?;
    }
    Ok(())
}

/// The section of a part.
fn sectioned_part(alloc: Global, form: &Form, part: &PartSheet) -> Result<PartSheet, WorkStop>
    requires fit { IsFit part.now.sheet }
    ensures value { IfOk result (λ p. p ≡ section_part form.now part.now) }
    ensures narrow { OnOk result (IsNarrowSection form.now part.now.sheet) }
    ensures too_wide { result ≡ Err WorkStop.TooWide
        → IsNarrowSection form.now part.now.sheet → ⊥ }
{
    part.known();
    let made = section(alloc, form, part.sheet())?;
    if are_own(part) {
        return Ok(PartSheet::own(made));
    }
    let levels = section_levels(alloc, form, part, made.cell_count())?;
    Ok(PartSheet::new(made, levels))
}

/// For each cell of a part's section, of which there are so many, the level of the cell that it
/// lies in.
fn section_levels(
    alloc: Global,
    form: &Form,
    part: &PartSheet,
    room: usize,
) -> Result<Vec<u32>, AllocError>
    requires narrow { All (IsNarrowValue form.now) part.now.sheet.points }
    ensures { IfOk result (λ v.
        v.items ≡ handed_section form.now part.now.sheet part.now.levels) }
{
    let sheet = part.sheet();
    let inside = insides(alloc, form, sheet.places())?;
    let mut levels = Vec::with_capacity(alloc, room)?;
    part.known();
    sheet.known();
    for i in 0..sheet.cell_count() {
        push_copies(&mut levels, count_in(&inside, sheet.cell(i)), part.level(i))?;
    }
    Ok(levels)
}

/// Whether each point is inside.
fn insides(alloc: Global, form: &Form, places: &Places) -> Result<Vec<bool>, AllocError>
    requires narrow { All (IsNarrowValue form.now) (points_in places.now) }
    ensures { IfOk result (λ v. v.items ≡ map (is_inside_at form.now) (points_in places.now)) }
{
    let mut inside = Vec::with_capacity(alloc, places.len())?;
    for rank in 0..places.len() {
        inside.push(is_inside_at(form, &places.get(rank)))?;
    }
    Ok(inside)
}

/// A point is inside.
fn is_inside_at(form: &Form, point: &Point5) -> bool
    requires narrow { IsNarrowValue form.now point.now }
    ensures { result ≡ is_inside_at form.now point.now }
{
    match value(form, point) {
        Ok(above) => is_at_least_0(&above),
        Err(_) => unreachable!(),
    }
}

/// A value at an inside point.
fn is_at_least_0(value: &i128) -> bool
    ensures { result ≡ int_le (pos 0) value.now }
{
    is_inside(*value)
}

/// How many cells a section has in a cell, by which points are inside.
fn count_in(inside: &[bool], cell: &[u32]) -> usize
    requires below { All (λ r. r < length inside.now) cell.now }
    requires some { 1 ≤ length cell.now }
    requires most { length cell.now ≤ 4 }
    ensures { result ≡ length (cells_at (length cell.now)
        (mask_of (λ r. slice_index_or inside.now r false) cell.now)) }
{
    let case = cells_of(cell.len() as u8, mask(inside, cell));
    usize::from(case.count)
}

/// Which corners of a cell are inside, the first one's bit lowest.
fn mask(inside: &[bool], cell: &[u32]) -> u8
    requires below { All (λ r. r < length inside.now) cell.now }
    requires most { length cell.now ≤ 4 }
    ensures value { result ≡ mask_of (λ r. slice_index_or inside.now r false) cell.now }
    ensures below { result < 2 ^ length cell.now }
{
    let a = bit(inside, cell, 0);
    let b = bit(inside, cell, 1);
    let c = bit(inside, cell, 2);
    let d = bit(inside, cell, 3);
    a + 2 * (b + 2 * (c + 2 * d))
}

/// 1 where a cell has such a corner and it is inside.
fn bit(inside: &[bool], cell: &[u32], corner: usize) -> u8
    requires below { All (λ r. r < length inside.now) cell.now }
    ensures has { corner < length cell.now → result
        ≡ mask_of (λ r. slice_index_or inside.now r false) (slice_index cell.now corner ∷ []) }
    ensures none { length cell.now ≤ corner → result ≡ 0 }
    ensures most { result ≤ 1 }
{
    if corner < cell.len() && inside[cell[corner] as usize] {
        1
    } else {
        0
    }
}
