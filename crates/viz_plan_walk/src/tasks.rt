//! Steps that lead past writers.

ghost use Rattle.std.specs.Prelude.{◌≡◌, IfOk, Some, slice_get, map};
ghost use Rattle.viz_network.specs.Step.{AreSteps, nodes_of};
ghost use Rattle.viz_plan_walk.specs.TaskSteps.{AreTasks, told, source_of};
ghost use Rattle.viz_plan_meaning.specs.Networks.{passes};
ghost use Rattle.viz_network.specs.Network.{node_of};

use std::alloc::{AllocError, Global};
use viz_base::NodeId;
use viz_kinds::Settings;
use viz_network::{Net, Step};

/// Steps whose inputs lead past writers, and for each step the place of the one that requests to it
/// reach: its own, or that of what feeds a writer.
#[derive(Debug, Drop)]
pub struct Tasks {
    pub steps: Vec<Step>,
    pub sources: Vec<Option<usize>>,
}

fn is_passing(settings: &Settings) -> bool
    ensures { result ≡ passes settings.now }
{
    matches!(settings, Settings::Writer { .. })
}

fn told_at(sources: &[Option<usize>], place: &Option<usize>) -> Option<usize>
    ensures { result ≡ told sources.now place.now }
{
    let Some(place) = place else {
        return None;
    };
    match sources.get(*place) {
        Some(source) => *source,
        None => None,
    }
}

// Where the requests to the eight inputs go.
fn told_all(sources: &[Option<usize>], places: &[Option<usize>; 8]) -> [Option<usize>; 8]
    ensures { result ≡ map (told sources.now) places.now }
{
    let [a, b, c, d, e, f, g, h] = places;
    [
        told_at(sources, a),
        told_at(sources, b),
        told_at(sources, c),
        told_at(sources, d),
        told_at(sources, e),
        told_at(sources, f),
        told_at(sources, g),
        told_at(sources, h),
    ]
}

fn own_source(net: &Net, node: NodeId, place: usize, inputs: &[Option<usize>; 8]) -> Option<usize>
    ensures { result ≡ source_of (node_of net.now node.0) place inputs.now }
{
    let Some(node) = net.node(node) else {
        return None;
    };
    if is_passing(&node.settings) {
        let [first, _, _, _, _, _, _, _] = inputs;
        *first
    } else {
        Some(place)
    }
}

/// The steps with inputs that lead past writers.
pub fn task_steps(alloc: Global, net: &Net, steps: &[Step]) -> Result<Tasks, AllocError>
    requires { AreSteps net.now steps.now }
    ensures value { IfOk result (λ tasks. AreTasks net.now
        (nodes_of steps.now) tasks.steps.items tasks.sources.items) }
{
    let mut tasks = Vec::with_capacity(alloc, steps.len())?;
    let mut sources = Vec::with_capacity(alloc, steps.len())?;
    for (place, step) in steps.iter().enumerate() {
        let inputs = told_all(&sources, &step.inputs);
        let source = own_source(net, step.node, place, &inputs);
        sources.push(source)?;
        tasks.push(Step {
            node: step.node,
            inputs,
        })?;
    }
    Ok(Tasks {
        steps: tasks,
        sources,
    })
}
