//! Pieces of the tetrahedra and the sections of what is at the first port.

ghost use Rattle.std.specs.Prelude.{◌≡◌, ◌∷◌, [], IfErr, IfOk, None, Some};
ghost use Rattle.std.specs.Option.{option_copied};
ghost use Rattle.viz_node_meaning.specs.Data.{contour_forms};
ghost use Rattle.viz_node_parts.specs.Made.{IsWide, MakesNarrow, MakesTets, MayStop};
ghost use Rattle.viz_node_parts.specs.Taken.{TakesEither, TakesFitMesh, TakesSlab};
ghost use Rattle.viz_node_parts.specs.Steps.{AreSections, stop_of};

use crate::ports::{image_of, mesh_of, piece_of};
use std::alloc::{AllocError, Global};
use viz_extent::Extent;
use viz_fraction::Form;
use viz_meaning::WorkStop;
use viz_mesh_parts::section_part;
use viz_network::Cause;
use viz_node_rules::{OwnStop, contour_forms};
use viz_parts::{Part, Request};
use viz_piece_section::section_image;
use viz_piece_tets::tets;

/// A piece of the tetrahedra of the whole.
pub fn tets_piece(
    alloc: Global,
    whole: &Option<Extent>,
    request: &Request,
    input: Option<&Part>,
) -> Result<Part, AllocError>
    requires taken { TakesSlab whole.now request.now (option_copied input) }
    ensures made { IfOk result (MakesTets whole.now request.now (option_copied input.entry)) }
{
    let slab = image_of(input);
    let (p, n, ghosts) = piece_of(request);
    match whole {
        Some(whole) => tets(alloc, slab, whole, p, n, ghosts),
        None => unreachable!(),
    }
}

// The sections of a piece of the whole by forms.
fn image_sections(
    alloc: Global,
    forms: &[Form],
    whole: &Extent,
    request: &Request,
    input: Option<&Part>,
) -> Result<Part, WorkStop>
    requires taken { TakesSlab (Some whole.now) request.now (option_copied input) }
    ensures value { AreSections forms.now (Some whole.now) request.now (option_copied input.entry)
        result }
{
    let slab = image_of(input);
    let (p, n, ghosts) = piece_of(request);
    section_image(alloc, slab, whole, p, n, ghosts, forms)
}

// The sections of a part of a mesh by forms.
fn mesh_sections(
    alloc: Global,
    forms: &[Form],
    request: &Request,
    input: Option<&Part>,
) -> Result<Part, WorkStop>
    requires taken { TakesFitMesh (option_copied input) }
    ensures value { AreSections forms.now None request.now (option_copied input.entry) result }
{
    section_part(alloc, mesh_of(input), forms)
}

// Why there are no sections.
fn stop_of(stop: WorkStop) -> OwnStop
    ensures { result ≡ stop_of stop }
{
    match stop {
        WorkStop::TooWide => OwnStop::Cause(Cause::TooWide),
        WorkStop::Memory => OwnStop::Memory,
    }
}

// The sections by forms.
fn section_piece(
    alloc: Global,
    forms: &[Form],
    whole: &Option<Extent>,
    request: &Request,
    input: Option<&Part>,
) -> Result<Part, OwnStop>
    requires taken { TakesEither whole.now request.now (option_copied input) }
    ensures made { IfOk result (MakesNarrow forms.now whole.now request.now
        (option_copied input.entry)) }
    ensures cause { IfErr result (MayStop (IsWide forms.now (option_copied input.entry))) }
{
    let made = match whole {
        Some(whole) => image_sections(alloc, forms, whole, request, input),
        None => mesh_sections(alloc, forms, request, input),
    };
    match made {
        Ok(part) => Ok(part),
        Err(stop) => Err(stop_of(stop)),
    }
}

/// The contours at the first levels of eight.
pub fn contour_piece(
    alloc: Global,
    count: u8,
    levels: &[i64; 8],
    whole: &Option<Extent>,
    request: &Request,
    input: Option<&Part>,
) -> Result<Part, OwnStop>
    requires taken { TakesEither whole.now request.now (option_copied input) }
    ensures made { IfOk result (MakesNarrow (contour_forms count levels.now) whole.now request.now
        (option_copied input.entry)) }
    ensures cause { IfErr result (MayStop (IsWide (contour_forms count levels.now)
        (option_copied input.entry))) }
{
    let forms = contour_forms(alloc, count, levels)?;
    section_piece(alloc, &forms, whole, request, input)
}

/// The cut by a plane.
pub fn cut_piece(
    alloc: Global,
    form: Form,
    whole: &Option<Extent>,
    request: &Request,
    input: Option<&Part>,
) -> Result<Part, OwnStop>
    requires taken { TakesEither whole.now request.now (option_copied input) }
    ensures made { IfOk result (MakesNarrow (form ∷ []) whole.now request.now
        (option_copied input.entry)) }
    ensures cause { IfErr result (MayStop (IsWide (form ∷ []) (option_copied input.entry))) }
{
    section_piece(alloc, &[form], whole, request, input)
}
