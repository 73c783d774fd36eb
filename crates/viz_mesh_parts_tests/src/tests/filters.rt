//! The filters of meshes, one call for all.

ghost use Rattle.viz_piece_divisions.specs.Answers.{IsOfMesh};

use std::alloc::Global;
use std::test::Fail;
use viz_base::Shared;
use viz_fraction::Form;
use viz_mesh_parts::{append_parts, boundary_part, section_part, select_part};
use viz_parts::Part;
use viz_piece_plain::is_fit_part;

/// A filter with its parameters.
#[derive(Clone, Copy, Debug)]
pub(super) enum Filter {
    /// The least and the greatest scalar, and whether all corners have one between them.
    Select(i64, i64, bool),
    /// By a contour and by two planes.
    Section,
    Boundary,
    /// The mesh twice.
    Append,
}

/// A contour, an upright plane, and a slanted one with the scalar.
const FORMS: [Form; 3] = [
    Form {
        a: 0,
        b: 0,
        c: 0,
        q: 1,
        r: 2,
    },
    Form {
        a: 1,
        b: 0,
        c: 0,
        q: 0,
        r: 17,
    },
    Form {
        a: 1,
        b: -3,
        c: 0,
        q: 1,
        r: 5,
    },
];

/// What a filter makes of a part, with so many ghost levels.
pub(super) fn made_of(alloc: Global, filter: Filter, part: Part, ghosts: u32) -> Result<Part, Fail>
    requires mesh { IsOfMesh part }
{
    match filter {
        Filter::Select(lo, hi, all) => Ok(select_part(alloc, &part, lo, hi, all)?),
        Filter::Section => sectioned(alloc, &part, &FORMS),
        Filter::Boundary => Ok(boundary_part(alloc, &part, ghosts)?),
        Filter::Append => joined(alloc, part),
    }
}

/// The sections of a part that fits.
pub(super) fn sectioned(alloc: Global, part: &Part, forms: &[Form]) -> Result<Part, Fail>
    requires mesh { IsOfMesh part.now }
{
    if !is_fit_part(part) {
        return Err("cells that fit")?;
    }
    Ok(section_part(alloc, part, forms)?)
}

/// A part twice.
pub(super) fn joined(alloc: Global, part: Part) -> Result<Part, Fail>
    requires mesh { IsOfMesh part }
{
    let one = Shared::new(alloc, part)?;
    let two = one.copy()?;
    let inputs = vec![in alloc; one, two]?;
    Ok(append_parts(alloc, &inputs)?)
}
