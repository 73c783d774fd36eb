//! An order in which one node stands in front of another that it is about to feed.

ghost use Rattle.std.specs.Prelude.{◌≡◌, IsSome, IsTrue, true, not};
ghost use Rattle.viz_network.specs.Network.{node_of};
ghost use Rattle.viz_network.specs.Cone.{cone_of, has_node};
ghost use Rattle.viz_network.specs.Steps.Order.{IsOrder, comes_first};

use crate::nodes::{Nodes, guess_all};
use crate::part::part;
use crate::sweep::{mark_of, marks_below};
use viz_base::NodeId;

// Whether the first node stands in front of each place of the second.
fn stands_before(order: &[NodeId], first: NodeId, second: NodeId) -> bool
    ensures { result ≡ comes_first first.0 second.0 order.now }
{
    for id in order {
        if second == *id {
            return false;
        }
        if first == *id {
            return true;
        }
    }
    false
}

/// Puts the source in front of the target, unless a connection from it to the target closes a
/// cycle. An order in which it stands there stays; else all that lies downstream of the target
/// moves back.
pub fn make_way(nodes: &Nodes, order: &mut Vec<NodeId>, source: NodeId, target: NodeId) -> bool
    requires order { IsOrder nodes.now.entries order.old.items }
    requires source { IsSome (node_of nodes.now.entries source.0) }
    requires target { IsSome (node_of nodes.now.entries target.0) }
    ensures free { result ≡ not (has_node target.0 (cone_of nodes.now.entries source.0)) }
    ensures order { IsOrder nodes.now.entries order.new.items }
    ensures first { IsTrue result → comes_first source.0 target.0 order.new.items ≡ true }
{
    if stands_before(order, source, target) {
        return true;
    }
    let mut guesses = [0; 4096];
    guess_all(nodes, &mut guesses);
    let marks = marks_below(nodes, &guesses, order, target);
    if mark_of(nodes, &guesses, &marks, source) {
        return false;
    }
    part(nodes, &guesses, &marks, order);
    true
}
