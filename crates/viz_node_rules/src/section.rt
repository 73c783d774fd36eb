//! Sections of sheets and of images by several forms.

ghost use Rattle.std.specs.Prelude.{◌≡◌, ◌∷◌, [], All, IfOk, IsErrOf, OnOk, map};
ghost use Rattle.viz_fraction.specs.Forms.{contour_form};
ghost use Rattle.viz_meaning.specs.Narrow.{AreNarrowSections};
ghost use Rattle.viz_fraction.specs.declared.forms.Form.{Form as Formed};
ghost use Rattle.viz_meaning.specs.Section.{section_of, sections_of};
ghost use Rattle.viz_meaning.specs.Tetrahedra.{tetrahedra_sheet};
ghost use Rattle.viz_sheet.specs.Sheet.{IsFit, IsSheet};
ghost use Rattle.viz_node_rules.specs.Steps.Made.{HasFitSections};

use crate::parameters::forms_of;
use std::alloc::Global;
use viz_cells::sections;
use viz_contour::contour;
use viz_dataset::Image;
use viz_fraction::Form;
use viz_meaning::{WorkStop, sections_are_sheets, tetrahedra_are_a_sheet};
use viz_sheet::{Mesh, Sheet};
use viz_tets::tets;

// The tetrahedra of an image fit.
pub fn tetrahedra_are_fit(image: &Image)
    ensures { IsFit (tetrahedra_sheet image.now) }
{
    let _extent = image.extent();
    tetrahedra_are_a_sheet();
}

// Sections of an image's tetrahedra fit.
fn tetrahedra_fit(image: &Image)
    ensures { (f : Formed) → IsFit (section_of f (tetrahedra_sheet image.now)) }
{
    let _extent = image.extent();
    tetrahedra_are_a_sheet();
    sections_are_sheets();
}

// Sections of a sheet that fits fit.
fn section_fits(sheet: &Sheet)
    requires { IsFit sheet.now }
    ensures { HasFitSections sheet.now }
{
    sheet.known();
    let _size = sheet.leaves().size();
    sections_are_sheets();
}

// Sections of sheets that fit fit.
fn sections_fit(sheets: &[Sheet])
    requires { All IsFit sheets.now }
    ensures { All HasFitSections sheets.now }
{
    for sheet in sheets {
        section_fits(sheet);
    }
}

/// Says the rule of each sheet to a caller's proof; it does nothing.
pub fn known(sheets: &[Sheet])
    ensures { All IsSheet sheets.now }
{
    for sheet in sheets {
        sheet.known();
    }
}

/// The sections of sheets by forms: of each form, a sheet for each.
pub fn mesh_sections(alloc: Global, forms: &[Form], sheets: &[Sheet]) -> Result<Mesh, WorkStop>
    requires { All IsFit sheets.now }
    ensures value { IfOk result (λ mesh. mesh ≡ sections_of forms.now sheets.now) }
    ensures narrow { OnOk result (AreNarrowSections forms.now sheets.now) }
    ensures too_wide { IsErrOf result WorkStop.TooWide → ¬ AreNarrowSections forms.now sheets.now }
    ensures fits { IfOk result (All IsFit) }
{
    sections_fit(sheets);
    sections(alloc, forms, sheets)
}

/// The contours of sheets: of each level, a sheet for each.
pub fn mesh_contours(alloc: Global, levels: &[i64], sheets: &[Sheet]) -> Result<Mesh, WorkStop>
    requires { All IsFit sheets.now }
    ensures value { IfOk result (λ mesh.
        mesh ≡ sections_of (map contour_form levels.now) sheets.now) }
    ensures narrow { OnOk result
        (AreNarrowSections (map contour_form levels.now) sheets.now) }
    ensures too_wide { IsErrOf result WorkStop.TooWide
        → ¬ AreNarrowSections (map contour_form levels.now) sheets.now }
    ensures fits { IfOk result (All IsFit) }
{
    let forms = forms_of(alloc, levels)?;
    mesh_sections(alloc, &forms, sheets)
}

/// The sections of an image by forms, through its tetrahedra: a sheet of each form.
pub fn image_sections(alloc: Global, forms: &[Form], image: &Image) -> Result<Mesh, WorkStop>
    ensures value { IfOk result (λ mesh.
        mesh ≡ sections_of forms.now (tetrahedra_sheet image.now ∷ [])) }
    ensures narrow { OnOk result
        (AreNarrowSections forms.now (tetrahedra_sheet image.now ∷ [])) }
    ensures too_wide { IsErrOf result WorkStop.TooWide
        → ¬ AreNarrowSections forms.now (tetrahedra_sheet image.now ∷ []) }
    ensures fits { IfOk result (All IsFit) }
{
    tetrahedra_are_fit(image);
    let made = tets(alloc, image)?;
    mesh_sections(alloc, forms, made.sheets())
}

/// The contours of an image: a sheet of each level.
pub fn image_contours(alloc: Global, levels: &[i64], image: &Image) -> Result<Mesh, WorkStop>
    ensures value { IfOk result (λ mesh.
        mesh ≡ sections_of (map contour_form levels.now) (tetrahedra_sheet image.now ∷ [])) }
    ensures narrow { OnOk result
        (AreNarrowSections (map contour_form levels.now) (tetrahedra_sheet image.now ∷ [])) }
    ensures too_wide { IsErrOf result WorkStop.TooWide
        → ¬ AreNarrowSections (map contour_form levels.now) (tetrahedra_sheet image.now ∷ []) }
    ensures fits { IfOk result (All IsFit) }
{
    tetrahedra_fit(image);
    let mut sheets = Vec::with_capacity(alloc, levels.len())?;
    for level in levels {
        sheets.push(contour(alloc, level, image)?)?;
    }
    Ok(Mesh::new(sheets))
}
