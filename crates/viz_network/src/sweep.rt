//! What each node's cone has, node by node in an order in which each stands behind what feeds it.

ghost use Rattle.std.specs.Prelude.{◌≡◌, ◌<◌, ◌≤◌, ◌∷◌, [], IsSome, Some, length, slice_get};
ghost use Rattle.std.specs.Prelude.{false, nat_eq, max};
ghost use Rattle.viz_network.specs.Network.{node_of};
ghost use Rattle.viz_network.specs.Cone.{either, own_stamp, newest, cone_of};
ghost use Rattle.viz_network.specs.Steps.Order.{IsOrder, rank_of as ranked, Has};
ghost use Rattle.viz_network.specs.Steps.Marks.{IsTold, told, ports_told};
ghost use Rattle.viz_network.specs.EqualStamps.{IsAscending};
ghost use Rattle.viz_network.specs.declared.node.Node.{Node as Kept};

use crate::node::Node;
use crate::nodes::{Guesses, Nodes, guess_all, guessed_rank};
use viz_base::NodeId;

/// The rank of a node that is there.
pub fn rank_in(nodes: &Nodes, guesses: &Guesses, id: NodeId) -> usize
    requires ascending { IsAscending nodes.now.entries }
    requires there { IsSome (node_of nodes.now.entries id.0) }
    ensures value { ranked nodes.now.entries id.0 ≡ Some result }
    ensures within { result < length nodes.now.entries }
{
    guessed_rank(nodes, guesses, id).unwrap()
}

/// The mark of the node.
pub fn mark_of(nodes: &Nodes, guesses: &Guesses, marks: &[bool; 256], id: NodeId) -> bool
    requires ascending { IsAscending nodes.now.entries }
    requires few { length nodes.now.entries ≤ 256 }
    ensures { result ≡ told false nodes.now.entries marks.now id.0 }
{
    match guessed_rank(nodes, guesses, id) {
        Some(rank) => marks[rank],
        None => false,
    }
}

fn is_fed(nodes: &Nodes, guesses: &Guesses, marks: &[bool; 256], input: &Option<NodeId>) -> bool
    requires ascending { IsAscending nodes.now.entries }
    requires few { length nodes.now.entries ≤ 256 }
    ensures { result ≡ ports_told either false nodes.now.entries marks.now (input.now ∷ []) }
{
    match input {
        Some(id) => mark_of(nodes, guesses, marks, *id),
        None => false,
    }
}

// Whether a node with a mark feeds one of the ports.
fn is_fed_by(
    nodes: &Nodes,
    guesses: &Guesses,
    marks: &[bool; 256],
    inputs: &[Option<NodeId>],
) -> bool
    requires ascending { IsAscending nodes.now.entries }
    requires few { length nodes.now.entries ≤ 256 }
    ensures { result ≡ ports_told either false nodes.now.entries marks.now inputs.now }
{
    for input in inputs {
        if is_fed(nodes, guesses, marks, input) {
            return true;
        }
    }
    false
}

fn is_late(nodes: &Nodes, guesses: &Guesses, marks: &[bool; 256], to: NodeId, node: &Node) -> bool
    requires ascending { IsAscending nodes.now.entries }
    requires few { length nodes.now.entries ≤ 256 }
    ensures { result ≡ either (nat_eq to.0 node.now.id.0)
        (ports_told either false nodes.now.entries marks.now node.now.inputs) }
{
    to == node.id || is_fed_by(nodes, guesses, marks, &node.inputs)
}

/// Marks the nodes, at their ranks, that are `to` or lie downstream of it.
pub fn marks_below(nodes: &Nodes, guesses: &Guesses, order: &[NodeId], to: NodeId) -> [bool; 256]
    requires { IsOrder nodes.now.entries order.now }
    ensures { IsTold either false (λ n. nat_eq to.0 n.id.0) nodes.now.entries order.now
        (length order.now) result }
{
    let mut marks = [false; 256];
    for id in order {
        let rank = rank_in(nodes, guesses, *id);
        marks[rank] = is_late(nodes, guesses, &marks, to, &nodes[rank]);
    }
    marks
}

fn input_stamp(nodes: &Nodes, guesses: &Guesses, stamps: &[u32; 256], input: &Option<NodeId>) -> u32
    requires ascending { IsAscending nodes.now.entries }
    requires few { length nodes.now.entries ≤ 256 }
    ensures { result ≡ ports_told max 0 nodes.now.entries stamps.now (input.now ∷ []) }
{
    let Some(id) = input else {
        return 0;
    };
    match guessed_rank(nodes, guesses, *id) {
        Some(rank) => stamps[rank],
        None => 0,
    }
}

fn input_stamps(
    nodes: &Nodes,
    guesses: &Guesses,
    stamps: &[u32; 256],
    inputs: &[Option<NodeId>],
) -> u32
    requires ascending { IsAscending nodes.now.entries }
    requires few { length nodes.now.entries ≤ 256 }
    ensures { result ≡ ports_told max 0 nodes.now.entries stamps.now inputs.now }
{
    let mut newest = 0;
    for input in inputs {
        newest = input_stamp(nodes, guesses, stamps, input).max(newest);
    }
    newest
}

fn cone_stamp(nodes: &Nodes, guesses: &Guesses, stamps: &[u32; 256], node: &Node) -> u32
    requires ascending { IsAscending nodes.now.entries }
    requires few { length nodes.now.entries ≤ 256 }
    ensures { result ≡ max node.now.stamp
        (ports_told max 0 nodes.now.entries stamps.now node.now.inputs) }
{
    let newest = input_stamps(nodes, guesses, stamps, &node.inputs);
    node.stamp.max(newest)
}

/// The stamps of the nodes, at their ranks.
pub fn stamps_of(nodes: &Nodes, guesses: &Guesses, order: &[NodeId]) -> [u32; 256]
    requires { IsOrder nodes.now.entries order.now }
    ensures { IsTold max 0 own_stamp nodes.now.entries order.now (length order.now) result }
{
    let mut stamps = [0; 256];
    for id in order {
        let rank = rank_in(nodes, guesses, *id);
        stamps[rank] = cone_stamp(nodes, guesses, &stamps, &nodes[rank]);
    }
    stamps
}

/// The greatest position that stamped a node of the cone of a node that is there.
pub fn stamp_in(nodes: &Nodes, order: &[NodeId], id: NodeId) -> u32
    requires order { IsOrder nodes.now.entries order.now }
    requires there { IsSome (node_of nodes.now.entries id.0) }
    ensures { result ≡ newest (cone_of nodes.now.entries id.0) }
{
    let mut guesses = [0; 4096];
    guess_all(nodes, &mut guesses);
    stamps_of(nodes, &guesses, order)[rank_in(nodes, &guesses, id)]
}
