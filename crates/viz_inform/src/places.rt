//! The places of nodes among steps.

ghost use Rattle.std.specs.Prelude.{◌≡◌, ◌≢◌, ℕ, IfSome, None, Some, slice_get};
ghost use Rattle.viz_network.specs.Step.{nodes_of};

use viz_base::NodeId;
use viz_network::Step;

/// The place of the step of a node.
pub fn place_of(steps: &[Step], node: NodeId) -> Option<usize>
    ensures some { IfSome result (λ p. slice_get (nodes_of steps.now) p ≡ Some node) }
    ensures none { result ≡ None → (p : ℕ) → slice_get (nodes_of steps.now) p ≢ Some node }
{
    for (place, step) in steps.iter().enumerate() {
        if step.node == node {
            return Some(place);
        }
    }
    None
}
