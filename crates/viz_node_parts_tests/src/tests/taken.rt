//! Whether parts are those that a node takes.

ghost use Rattle.std.specs.Prelude.{◌≡◌, ◌≤◌, All, IsTrue};
ghost use Rattle.std.specs.Option.{option_copied};
ghost use Rattle.viz_node_meaning.specs.Data.{radius_with};
ghost use Rattle.viz_node_meaning.specs.Information.{fed_at};
ghost use Rattle.viz_node_parts.specs.Taken.{
  HasPointsAround,
  HoldsBlock,
  TakesEither,
  TakesFitMesh,
  TakesImage,
  TakesMesh,
  TakesParts,
  TakesPiece,
  TakesSlab,
  parts_fed,
};
ghost use Rattle.viz_piece_divisions.specs.Answers.{IsOfMesh};

use viz_base::Shared;
use viz_extent::Extent;
use viz_kinds::Settings;
use viz_parts::{Part, Request};
use viz_piece_plain::is_fit_part;
use viz_piece_tets::asked;

// The part at a port, which are numbered from 1.
fn part_at(inputs: &[Option<Shared<Part>>], port: usize) -> Option<&Part>
    requires from_one { 1 ≤ port }
    ensures value { option_copied result ≡ fed_at port inputs.now }
{
    match inputs.get(port - 1) {
        Some(Some(part)) => Some(part.get()),
        _ => None,
    }
}

// An image with the points of the block that is asked for.
fn holds_block(request: &Request, input: Option<&Part>) -> bool
    ensures { IsTrue result → TakesImage HoldsBlock request.now (option_copied input.entry) }
{
    let Request::Block(out) = request else {
        return false;
    };
    match input {
        Some(Part::Image(image)) => image.extent().contains(out),
        _ => false,
    }
}

// An image with the points around the block.
fn has_points_around(
    radius: u32,
    whole: &Option<Extent>,
    request: &Request,
    input: Option<&Part>,
) -> bool
    ensures { IsTrue result → TakesImage (HasPointsAround (radius_with radius) whole.now)
        request.now (option_copied input.entry) }
{
    let Some(whole) = whole else {
        return false;
    };
    let Request::Block(out) = request else {
        return false;
    };
    match input {
        Some(Part::Image(image)) => {
            whole.contains(out) && image.extent().contains(&out.grow(radius.min(8), whole))
        }
        _ => false,
    }
}

// An image on the planes that the piece asks for.
fn is_slab(whole: &Option<Extent>, request: &Request, input: Option<&Part>) -> bool
    ensures { IsTrue result → TakesSlab whole.now request.now (option_copied input.entry) }
{
    let Some(whole) = whole else {
        return false;
    };
    let Request::Piece { p, n, ghosts } = request else {
        return false;
    };
    match input {
        Some(Part::Image(image)) => *p < *n && image.extent() == asked(whole, *p, *n, *ghosts),
        _ => false,
    }
}

// A part of a mesh.
fn is_of_mesh(part: &Part) -> bool
    ensures { IsTrue result → IsOfMesh part.now }
{
    match part {
        Part::Mesh(_) => true,
        Part::Image(_) => false,
    }
}

// The same at a port.
fn is_mesh(input: Option<&Part>) -> bool
    ensures { IsTrue result → TakesMesh (option_copied input.entry) }
{
    match input {
        Some(part) => is_of_mesh(part),
        None => false,
    }
}

// One whose sheets fit.
fn is_fit_mesh(input: Option<&Part>) -> bool
    ensures { IsTrue result → TakesFitMesh (option_copied input.entry) }
{
    match input {
        Some(part) => is_of_mesh(part) && is_fit_part(part),
        None => false,
    }
}

// What sections are made of.
fn is_either(whole: &Option<Extent>, request: &Request, input: Option<&Part>) -> bool
    ensures { IsTrue result → TakesEither whole.now request.now (option_copied input.entry) }
{
    match whole {
        Some(_) => is_slab(whole, request, input),
        None => is_fit_mesh(input),
    }
}

// A part of a mesh, where a piece is asked for.
fn is_piece(request: &Request, input: Option<&Part>) -> bool
    ensures { IsTrue result → TakesPiece request.now (option_copied input.entry) }
{
    match request {
        Request::Piece { .. } => is_mesh(input),
        Request::Block(_) => false,
    }
}

// Parts of meshes at the first port and at the third one, and none at the second one.
fn are_meshes(inputs: &[Option<Shared<Part>>]) -> bool
    ensures { IsTrue result → All IsOfMesh (parts_fed inputs.now) }
{
    match inputs {
        [Some(a), None, Some(b)] => is_of_mesh(a.get()) && is_of_mesh(b.get()),
        _ => false,
    }
}

/// Whether the parts at the ports are those that a node with these parameters takes; false of a
/// sample too.
pub(super) fn is_taken(
    settings: &Settings,
    whole: &Option<Extent>,
    request: &Request,
    inputs: &[Option<Shared<Part>>],
) -> bool
    ensures { IsTrue result → TakesParts settings.now whole.now request.now inputs.now }
{
    let first = part_at(inputs, 1);
    match settings {
        Settings::File { .. } => true,
        Settings::Crop { .. } => holds_block(request, first),
        Settings::Threshold { .. } => holds_block(request, first),
        Settings::Smooth { radius } => has_points_around(*radius, whole, request, first),
        Settings::Arith { .. } => {
            holds_block(request, first) && holds_block(request, part_at(inputs, 2))
        }
        Settings::Tets => is_slab(whole, request, first),
        Settings::Select { .. } => is_mesh(first),
        Settings::Contour { .. } => is_either(whole, request, first),
        Settings::Cut { .. } => is_either(whole, request, first),
        Settings::Append => are_meshes(inputs),
        Settings::Boundary => is_piece(request, first),
        Settings::Merge => is_mesh(first),
        _ => false,
    }
}
