//! What is told of the extents of nodes.

ghost use Rattle.std.specs.Prelude.{◌≡◌};
ghost use Rattle.viz_plan.specs.Told.{extent_of, extent_told};

use viz_base::NodeId;
use viz_extent::Extent;
use viz_inform::Told;
use viz_node_meaning::Information;

/// The extent of an image; None of a mesh.
pub fn extent_of(information: &Information) -> Option<Extent>
    ensures { result ≡ extent_of information.now }
{
    match information {
        Information::OfImage(grid) => Some(grid.extent),
        Information::OfMesh => None,
    }
}

/// The extent that is told of a node's image; None of a mesh.
pub fn extent_told(told: &[Told], node: NodeId) -> Option<Extent>
    ensures value { result ≡ extent_told told.now node.0 }
{
    for one in told {
        if one.node == node {
            return extent_of(&one.information);
        }
    }
    None
}
