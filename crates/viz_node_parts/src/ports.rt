//! What is asked for, and the parts at the ports.

ghost use Rattle.std.specs.Prelude.{◌≡◌, ◌≤◌, ◌++◌, ◌∷◌, [], IfOk, OnOk, Some};
ghost use Rattle.std.specs.Option.{option_copied};
ghost use Rattle.viz_node_meaning.specs.Information.{fed_at};
ghost use Rattle.viz_node_parts.specs.Steps.{AsksBlock, AsksPiece, HasImage};
ghost use Rattle.viz_node_parts.specs.Taken.{TakesMesh, parts_fed};
ghost use Rattle.viz_parts.specs.declared.request.Part.TheVariants.{Image as OfImage};
ghost use Rattle.viz_parts.specs.declared.request.Request.TheVariants.{Block, Piece};

use std::alloc::{AllocError, Global};
use viz_base::Shared;
use viz_dataset::Image;
use viz_extent::Extent;
use viz_parts::{Part, Request};

/// The part at a port, which are numbered from 1.
pub fn part_at(inputs: &[Option<Shared<Part>>], port: usize) -> Option<&Part>
    requires from_one { 1 ≤ port }
    ensures value { option_copied result ≡ fed_at port inputs.now }
{
    match inputs.get(port - 1) {
        Some(Some(part)) => Some(part.get()),
        _ => None,
    }
}

/// The block that is asked for.
pub fn block_of(request: &Request) -> &Extent
    requires block { AsksBlock request.now }
    ensures value { request.now ≡ Block result.now }
{
    match request {
        Request::Block(out) => out,
        Request::Piece { .. } => unreachable!(),
    }
}

/// The piece that is asked for, the number of pieces and the number of ghost levels.
pub fn piece_of(request: &Request) -> (u32, u32, u32)
    requires piece { AsksPiece request.now }
    ensures value { request.now ≡ Piece result.0 result.1 result.2 }
{
    match request {
        Request::Piece { p, n, ghosts } => (*p, *n, *ghosts),
        Request::Block(_) => unreachable!(),
    }
}

/// The image at a port.
pub fn image_of(input: Option<&Part>) -> &Image
    requires image { HasImage (option_copied input) }
    ensures value { option_copied input.entry ≡ Some (OfImage result.now) }
{
    match input {
        Some(Part::Image(image)) => image,
        _ => unreachable!(),
    }
}

/// The part of a mesh at a port.
pub fn mesh_of(input: Option<&Part>) -> &Part
    requires mesh { TakesMesh (option_copied input) }
    ensures value { option_copied input.entry ≡ Some result.now }
{
    match input {
        Some(part) => part,
        None => unreachable!(),
    }
}

// Adds one owner more of the part at a port.
fn push_part(parts: &mut Vec<Shared<Part>>, input: &Option<Shared<Part>>) -> Result<(), AllocError>
    ensures { OnOk result (parts.new.items ≡ parts.old.items ++ parts_fed (input.now ∷ [])) }
{
    if let Some(part) = input {
        parts.push(part.copy()?)?;
    }
    Ok(())
}

/// The parts at the ports that are fed, ports ascending: one owner more of each.
pub fn parts_fed(
    alloc: Global,
    inputs: &[Option<Shared<Part>>],
) -> Result<Vec<Shared<Part>>, AllocError>
    ensures value { IfOk result (λ parts. parts.items ≡ parts_fed inputs.now) }
{
    let mut parts = Vec::with_capacity(alloc, inputs.len())?;
    for input in inputs {
        push_part(&mut parts, input)?;
    }
    Ok(parts)
}
