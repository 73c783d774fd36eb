//! The section of a slab by one form.

ghost use Rattle.std.specs.Prelude.{◌≡◌, IfOk, IfSome, OnOk};
ghost use Rattle.viz_fraction.specs.Forms.{contour_form};
ghost use Rattle.viz_meaning.specs.Narrow.{IsNarrowSection};
ghost use Rattle.viz_meaning.specs.Section.{section_of};
ghost use Rattle.viz_meaning.specs.Tetrahedra.{tetrahedra_sheet};

use std::alloc::Global;
use viz_cells::section;
use viz_contour::contour;
use viz_dataset::Image;
use viz_fraction::Form;
use viz_meaning::{WorkStop, tetrahedra_are_a_sheet};
use viz_piece_tets::sheet_of_tets;
use viz_sheet::Sheet;

/// The section of an image's tetrahedra: a contour by flags, any other form cell by cell.
pub(crate) fn slab_section(alloc: Global, slab: &Image, form: &Form) -> Result<Sheet, WorkStop>
    ensures value { IfOk result (λ s.
        s ≡ section_of form.now (tetrahedra_sheet slab.now)) }
    ensures narrow { OnOk result (IsNarrowSection form.now (tetrahedra_sheet slab.now)) }
    ensures too_wide { result ≡ Err WorkStop.TooWide
        → IsNarrowSection form.now (tetrahedra_sheet slab.now) → ⊥ }
{
    match level_of(form) {
        Some(level) => contour(alloc, &level, slab),
        None => plane_section(alloc, slab, form),
    }
}

/// The same, through the list of tetrahedra.
fn plane_section(alloc: Global, slab: &Image, form: &Form) -> Result<Sheet, WorkStop>
    ensures value { IfOk result (λ s.
        s ≡ section_of form.now (tetrahedra_sheet slab.now)) }
    ensures narrow { OnOk result (IsNarrowSection form.now (tetrahedra_sheet slab.now)) }
    ensures too_wide { result ≡ Err WorkStop.TooWide
        → IsNarrowSection form.now (tetrahedra_sheet slab.now) → ⊥ }
{
    let _extent = slab.extent();
    tetrahedra_are_a_sheet();
    let sheet = sheet_of_tets(alloc, slab)?;
    section(alloc, form, &sheet)
}

/// The level of the contour that a form is, if it is one.
fn level_of(form: &Form) -> Option<i64>
    ensures { IfSome result (λ level. form.now ≡ contour_form level) }
{
    if form.a == 0 && form.b == 0 && form.c == 0 && form.q == 1 {
        Some(form.r)
    } else {
        None
    }
}
