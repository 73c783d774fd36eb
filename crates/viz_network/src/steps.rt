//! All nodes as steps, each behind what feeds it.

ghost use Rattle.std.specs.Prelude.{◌≡◌, ◌≤◌, IfOk, length, map};
ghost use Rattle.viz_network.specs.EqualStamps.{IsAscending};
ghost use Rattle.viz_network.specs.Step.{AreSteps};
ghost use Rattle.viz_network.specs.Steps.Order.{IsOrder};
ghost use Rattle.viz_network.specs.Steps.Places.{place_told};

use crate::nodes::{Guesses, Nodes, guess_all, guessed_rank};
use crate::sweep::rank_in;
use std::alloc::{AllocError, Global};
use viz_base::NodeId;

/// A node, and the places of the steps that feed its ports, port 1 first.
#[derive(Clone, Copy, Debug)]
pub struct Step {
    pub node: NodeId,
    pub inputs: [Option<usize>; 8],
}

fn place_of(
    nodes: &Nodes,
    guesses: &Guesses,
    places: &[usize; 256],
    input: &Option<NodeId>,
) -> Option<usize>
    requires ascending { IsAscending nodes.now.entries }
    requires few { length nodes.now.entries ≤ 256 }
    ensures { result ≡ place_told nodes.now.entries places.now input.now }
{
    let Some(id) = input else {
        return None;
    };
    match guessed_rank(nodes, guesses, *id) {
        Some(rank) => Some(places[rank]),
        None => None,
    }
}

// The places of what feeds the eight ports.
fn places_of(
    nodes: &Nodes,
    guesses: &Guesses,
    places: &[usize; 256],
    inputs: &[Option<NodeId>; 8],
) -> [Option<usize>; 8]
    requires ascending { IsAscending nodes.now.entries }
    requires few { length nodes.now.entries ≤ 256 }
    ensures { result ≡ map (place_told nodes.now.entries places.now) inputs.now }
{
    let [a, b, c, d, e, f, g, h] = inputs;
    [
        place_of(nodes, guesses, places, a),
        place_of(nodes, guesses, places, b),
        place_of(nodes, guesses, places, c),
        place_of(nodes, guesses, places, d),
        place_of(nodes, guesses, places, e),
        place_of(nodes, guesses, places, f),
        place_of(nodes, guesses, places, g),
        place_of(nodes, guesses, places, h),
    ]
}

/// A step for each node, in the order.
pub fn steps_in(alloc: Global, nodes: &Nodes, order: &[NodeId]) -> Result<Vec<Step>, AllocError>
    requires { IsOrder nodes.now.entries order.now }
    ensures { IfOk result (λ steps. AreSteps nodes.now.entries steps.items) }
{
    let mut guesses = [0; 4096];
    guess_all(nodes, &mut guesses);
    let mut places = [0; 256];
    let mut steps = Vec::with_capacity(alloc, order.len())?;
    for id in order {
        let rank = rank_in(nodes, &guesses, *id);
        let inputs = places_of(nodes, &guesses, &places, &nodes[rank].inputs);
        places[rank] = steps.len();
        steps.push(Step { node: *id, inputs })?;
    }
    Ok(steps)
}
