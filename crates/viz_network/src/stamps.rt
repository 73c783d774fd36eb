//! The stamps of all nodes of a network, found by one sweep.

ghost use Rattle.std.specs.Prelude.{◌≡◌};
ghost use Rattle.viz_network.specs.Cone.{stamp_of};
ghost use Rattle.viz_network.specs.Steps.Order.{IsOrder};

use crate::nodes::{Nodes, guess_all, rank_of};
use crate::sweep::stamps_of;
use std::marker::Model;
use viz_base::NodeId;

/// The stamps of all nodes of a network. Contracts see the network.
#[derive(Drop)]
pub struct Stamps<'a> {
    nodes: &'a Nodes,
    // By the ranks of the nodes.
    stamps: [u32; 256],
}

impl<'a> Model for Stamps<'a> {
    ghost use Rattle.viz_network.specs.Network.{Network};
    ghost use Rattle.viz_network.specs.Steps.Marks.{IsStamped};

    ghost Value = { Network };

    ghost view = { λ s. s.nodes.now.entries };

    ghost invariant = { λ s. IsStamped s.nodes.now.entries s.stamps };
}

/// The stamps of all nodes.
pub fn stamps_in<'a>(nodes: &'a Nodes, order: &[NodeId]) -> Stamps<'a>
    requires { IsOrder nodes.now.entries order.now }
    ensures { result ≡ nodes.now.entries }
{
    let mut guesses = [0; 4096];
    guess_all(nodes, &mut guesses);
    let stamps = stamps_of(nodes, &guesses, order);
    Stamps { nodes, stamps }
}

impl<'a> Stamps<'a> {
    /// The greatest position that stamped a node of the cone, as `Net::stamp` gives it.
    pub fn of(&self, node: NodeId) -> Option<u32>
        ensures value { result ≡ stamp_of self.now node.0 }
    {
        let rank = rank_of(self.nodes, node)?;
        Some(self.stamps[rank])
    }
}
