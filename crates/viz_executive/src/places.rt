//! The places of the steps of nodes, found by nodes.

ghost use Rattle.std.specs.Prelude.{◌≡◌, IfSome, IsTrue, Some, slice_get};
ghost use Rattle.viz_network.specs.Step.{nodes_of};

use std::alloc::{AllocError, Global};
use viz_base::NodeId;
use viz_buckets::{Buckets, Numbered};
use viz_network::Step;

fn number_of(node: NodeId) -> u64
    ensures { result ≡ node.0 }
{
    u64::from(node.0)
}

/// A node, and a place of a step.
#[derive(Clone, Copy, Debug)]
pub struct Placed {
    pub node: NodeId,
    pub place: usize,
}

impl Numbered for Placed {
    ghost number = { λ placed. placed.node.0 };

    fn number(&self) -> u64 {
        number_of(self.node)
    }
}

/// The places of all steps, found by nodes.
pub fn places_of(alloc: Global, steps: &[Step]) -> Result<Buckets<Placed>, AllocError> {
    let mut all = Buckets::new(alloc, steps.len())?;
    for (place, step) in steps.iter().enumerate() {
        all.push(Placed {
            node: step.node,
            place,
        })?;
    }
    Ok(all)
}

// Whether the step at a place is the node's.
fn is_step_of(steps: &[Step], place: usize, node: NodeId) -> bool
    ensures { IsTrue result → slice_get (nodes_of steps.now) place ≡ Some node }
{
    match steps.get(place) {
        Some(step) => step.node == node,
        None => false,
    }
}

fn place_among(some: &[Placed], steps: &[Step], node: NodeId) -> Option<usize>
    ensures { IfSome result (λ p. slice_get (nodes_of steps.now) p ≡ Some node) }
{
    for one in some {
        if is_step_of(steps, one.place, node) {
            return Some(one.place);
        }
    }
    None
}

/// The place of the step of a node.
pub fn place_in(places: &Buckets<Placed>, steps: &[Step], node: NodeId) -> Option<usize>
    ensures { IfSome result (λ p. slice_get (nodes_of steps.now) p ≡ Some node) }
{
    place_among(places.bucket(number_of(node)), steps, node)
}
