//! What a node gives as one part, under its stamp.

ghost use Rattle.std.specs.Prelude.{IfOk, IsSome};
ghost use Rattle.viz_network.specs.Network.{node_of};
ghost use Rattle.viz_kept.specs.True.{IsMadeIn};

use std::alloc::Global;
use viz_base::{NodeId, Shared};
use viz_kept::whole_part;
use viz_network::{Net, Stop};
use viz_parts::{Key, Stored};
use viz_scratch::scratch;

/// What a node of the network gives, evaluated from scratch and stored whole, under its stamp.
///
/// # Errors
///
/// Those of an evaluation from scratch.
pub fn stored_whole(alloc: Global, net: &Net, node: NodeId) -> Result<Stored, Stop>
    requires there { IsSome (node_of net.now node.0) }
    ensures made { IfOk result (λ item. IsMadeIn net.now item) }
{
    let Some(stamp) = net.stamp(node) else {
        return Err(Stop::Memory);
    };
    let Ok(dataset) = scratch(alloc, net, node)?.try_unwrap() else {
        return Err(Stop::Memory);
    };
    let (request, part) = whole_part(alloc, dataset)?;
    let part = Shared::new(alloc, part)?;
    Ok(Stored {
        key: Key {
            node,
            stamp,
            request,
        },
        part,
    })
}
