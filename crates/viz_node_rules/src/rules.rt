//! The information rule of a node.

ghost use Rattle.std.specs.Prelude.{◌≡◌};
ghost use Rattle.viz_node_meaning.specs.Information.{filter_information, InformationRule};

use crate::files::file_information;
use crate::information::{cropped, shared_grid, thinned};
use crate::parameters::rate_with;
use crate::ports::{either_in, grid_in, mesh_in, meshes_at};
use viz_kinds::Settings;
use viz_network::{Cause, Node};
use viz_node_meaning::Information;

/// What is known of a filter's dataset, from what is known of those at its ports; or why the filter
/// gives none.
#[rattlefmt::skip]
fn filtered(settings: &Settings, inputs: &[Option<Information>; 8]) -> Result<Information, Cause>
    ensures { result ≡ filter_information settings.now inputs.now }
{
    match settings {
        Settings::Crop { x0, x1, y0, y1, z0, z1 } => {
            let grid = grid_in(1, &inputs[0])?;
            Ok(Information::OfImage(cropped([*x0, *x1, *y0, *y1, *z0, *z1], &grid)?))
        }
        Settings::Sample { x, y, z } => {
            let grid = grid_in(1, &inputs[0])?;
            Ok(Information::OfImage(thinned(rate_with(*x, *y, *z), &grid)?))
        }
        Settings::Threshold { .. } | Settings::Smooth { .. } => {
            Ok(Information::OfImage(grid_in(1, &inputs[0])?))
        }
        Settings::Arith { .. } => {
            let first = grid_in(1, &inputs[0])?;
            let second = grid_in(2, &inputs[1])?;
            Ok(Information::OfImage(shared_grid(&first, &second)?))
        }
        Settings::Tets => {
            grid_in(1, &inputs[0])?;
            Ok(Information::OfMesh)
        }
        Settings::Contour { .. } | Settings::Cut { .. } => {
            either_in(1, &inputs[0])?;
            Ok(Information::OfMesh)
        }
        Settings::Select { .. } | Settings::Boundary | Settings::Merge => mesh_in(1, &inputs[0]),
        Settings::Append => meshes_at(inputs),
        Settings::Writer { .. } => either_in(1, &inputs[0]),
        Settings::File { .. } => Err(Cause::Unconnected(1)),
    }
}

/// What is known of a node's dataset, from what is known of those at its ports, or why the node
/// gives none.
pub fn own_information(node: &Node, inputs: &[Option<Information>; 8]) -> Result<Information, Cause>
    ensures value { InformationRule node.now inputs.now result }
{
    match &node.settings {
        Settings::File { .. } => file_information(node),
        settings => filtered(settings, inputs),
    }
}
