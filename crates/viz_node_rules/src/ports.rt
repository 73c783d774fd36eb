//! What is known of the datasets at the ports.

ghost use Rattle.std.specs.Prelude.{◌≡◌};
ghost use Rattle.std.specs.List.{list_any};
ghost use Rattle.viz_node_meaning.specs.Information.{either_in, grid_in, is_fed, is_image};
ghost use Rattle.viz_node_meaning.specs.Information.{mesh_in, meshes_at, meshes_from};

use viz_network::Cause;
use viz_node_meaning::{Grid, Information};

/// The points of the image at a port.
pub fn grid_in(port: u8, input: &Option<Information>) -> Result<Grid, Cause>
    ensures { result ≡ grid_in port input.now }
{
    match input {
        None => Err(Cause::Unconnected(port)),
        Some(Information::OfImage(grid)) => Ok(*grid),
        Some(Information::OfMesh) => Err(Cause::WrongInput(port)),
    }
}

/// What is known of the image or the mesh at a port.
pub fn either_in(port: u8, input: &Option<Information>) -> Result<Information, Cause>
    ensures { result ≡ either_in port input.now }
{
    match input {
        None => Err(Cause::Unconnected(port)),
        Some(information) => Ok(*information),
    }
}

/// What is known of the mesh at a port.
pub fn mesh_in(port: u8, input: &Option<Information>) -> Result<Information, Cause>
    ensures { result ≡ mesh_in port input.now }
{
    match input {
        None => Err(Cause::Unconnected(port)),
        Some(Information::OfImage(_)) => Err(Cause::WrongInput(port)),
        Some(Information::OfMesh) => Ok(Information::OfMesh),
    }
}

fn is_any_fed(inputs: &[Option<Information>]) -> bool
    ensures { result ≡ list_any is_fed inputs.now }
{
    for input in inputs {
        if input.is_some() {
            return true;
        }
    }
    false
}

fn is_image(input: &Option<Information>) -> bool
    ensures { result ≡ is_image input.now }
{
    matches!(input, Some(Information::OfImage(_)))
}

// The lowest port that is fed with an image is the fault.
fn meshes_from(inputs: &[Option<Information>; 8]) -> Result<Information, Cause>
    ensures { result ≡ meshes_from 1 inputs.now }
{
    for (k, input) in inputs.iter().enumerate() {
        if is_image(input) {
            return Err(Cause::WrongInput(k as u8 + 1));
        }
    }
    Ok(Information::OfMesh)
}

/// What is known of the meshes at the ports, of which one at least is fed.
pub fn meshes_at(inputs: &[Option<Information>; 8]) -> Result<Information, Cause>
    ensures { result ≡ meshes_at inputs.now }
{
    if is_any_fed(inputs) {
        meshes_from(inputs)
    } else {
        Err(Cause::Unconnected(1))
    }
}
