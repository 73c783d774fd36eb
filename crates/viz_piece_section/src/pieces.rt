//! The sections of a piece.

ghost use Rattle.std.specs.Prelude.{◌≡◌, ◌<◌, IfOk, OnOk, [], ◌∷◌, map};
ghost use Rattle.viz_extent.specs.Parts.{IsPart};
ghost use Rattle.viz_meaning.specs.Narrow.{AreNarrowSections, IsNarrowSection};
ghost use Rattle.viz_meaning.specs.Section.{section_of};
ghost use Rattle.viz_meaning.specs.Tetrahedra.{tetrahedra_sheet};
ghost use Rattle.viz_piece_section.specs.Sections.{AnswersSections, section_piece};
ghost use Rattle.viz_piece_tets.specs.Asked.{asked};

use crate::cell_levels::cell_levels;
use crate::laws::{sections_are_parts, sections_of_shifted_sheets};
use crate::slab::slab_section;
use std::alloc::{AllocError, Global};
use viz_dataset::Image;
use viz_extent::Extent;
use viz_fraction::Form;
use viz_kuhn::{corners_are_the_cubes, edges_are_steps};
use viz_meaning::WorkStop;
use viz_parts::{Part, PartSheet};
use viz_piece_layers::tetrahedra_go_by_layers;
use viz_piece_tets::{OwnLayers, layers_between, leaf_base, shifted};
use viz_sheet::Sheet;

/// Piece `p` of `n` of the sections of a whole image by forms, with so many ghost levels: a part of
/// the sheet of each form. The slab has the planes that viz_piece_tets' `asked` names.
///
/// # Errors
///
/// `TooWide` only where a number of a section of the slab is wide, and a part only where none is.
/// Want of memory may come in place of both.
pub fn section_image(
    alloc: Global,
    slab: &Image,
    whole: &Extent,
    p: u32,
    n: u32,
    ghosts: u32,
    forms: &[Form],
) -> Result<Part, WorkStop>
    requires below { p < n }
    requires slab { slab.now.extent ≡ asked p n ghosts whole.now }
    ensures answers { IfOk result (AnswersSections forms.now p n ghosts whole.now slab.now) }
    ensures narrow { OnOk result
        (AreNarrowSections forms.now (tetrahedra_sheet slab.now ∷ [])) }
    ensures too_wide { result ≡ Err WorkStop.TooWide
        → AreNarrowSections forms.now (tetrahedra_sheet slab.now ∷ []) → ⊥ }
{
    sections_are_parts();
    let parts = parts_of(alloc, slab, whole, p, n, ghosts, forms)?;
    Ok(Part::Mesh(parts))
}

/// The part of the sheet of each form.
fn parts_of(
    alloc: Global,
    slab: &Image,
    whole: &Extent,
    p: u32,
    n: u32,
    ghosts: u32,
    forms: &[Form],
) -> Result<Vec<PartSheet>, WorkStop>
    requires below { p < n }
    requires slab { slab.now.extent ≡ asked p n ghosts whole.now }
    ensures value { IfOk result (λ v.
        v.items ≡ map (λ f. section_piece f p n whole.now slab.now) forms.now) }
    ensures narrow { OnOk result
        (AreNarrowSections forms.now (tetrahedra_sheet slab.now ∷ [])) }
    ensures too_wide { result ≡ Err WorkStop.TooWide
        → AreNarrowSections forms.now (tetrahedra_sheet slab.now ∷ []) → ⊥ }
{
    let mut parts = Vec::with_capacity(alloc, forms.len())?;
    for form in forms {
        parts.push(part_of(alloc, slab, whole, p, n, ghosts, form)?)?;
    }
    Ok(parts)
}

/// The part of the sheet of one form.
fn part_of(
    alloc: Global,
    slab: &Image,
    whole: &Extent,
    p: u32,
    n: u32,
    ghosts: u32,
    form: &Form,
) -> Result<PartSheet, WorkStop>
    requires below { p < n }
    requires slab { slab.now.extent ≡ asked p n ghosts whole.now }
    ensures value { IfOk result (λ part.
        part ≡ section_piece form.now p n whole.now slab.now) }
    ensures narrow { OnOk result (IsNarrowSection form.now (tetrahedra_sheet slab.now)) }
    ensures too_wide { result ≡ Err WorkStop.TooWide
        → IsNarrowSection form.now (tetrahedra_sheet slab.now) → ⊥ }
{
    let sheet = slab_section(alloc, slab, form)?;
    let part = leveled(alloc, sheet, slab, whole, p, n, ghosts, form)?;
    Ok(part)
}

/// The section of a slab, with the leaves of the whole and the level of each cell.
fn leveled(
    alloc: Global,
    sheet: Sheet,
    slab: &Image,
    whole: &Extent,
    p: u32,
    n: u32,
    ghosts: u32,
    form: &Form,
) -> Result<PartSheet, AllocError>
    requires below { p < n }
    requires slab { slab.now.extent ≡ asked p n ghosts whole.now }
    requires sheet { sheet ≡ section_of form.now (tetrahedra_sheet slab.now) }
    ensures { IfOk result (λ part. part ≡ section_piece form.now p n whole.now slab.now) }
{
    sections_of_shifted_sheets();
    tetrahedra_go_by_layers();
    corners_are_the_cubes();
    edges_are_steps();
    // What the extent of the whole tells of its bounds.
    let _bounds = whole.bounds();
    let block = slab.extent();
    let sheet = shifted(alloc, sheet, leaf_base(whole, &block))?;
    let own = OwnLayers::of(whole, p, n);
    let (low, high) = layers_between(whole, &block);
    if own.are_all(low, high) {
        return Ok(PartSheet::own(sheet));
    }
    let levels = cell_levels(alloc, &sheet, &own, whole)?;
    Ok(PartSheet::new(sheet, levels))
}
