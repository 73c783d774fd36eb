//! The plan of several requests to a step.

ghost use Rattle.std.specs.Prelude.{◌≡◌, ℕ, IfOk, IfSome, Some, slice_get};
ghost use Rattle.viz_plan_meaning.specs.Plan.{plan, used, Upstream};
ghost use Rattle.viz_plan_meaning.specs.Steps.Visits.{IsOne};
ghost use Rattle.viz_plan_walk.specs.Walk.{named, to_step};
ghost use Rattle.viz_network.specs.Step.{AreSteps, nodes_of};
ghost use Rattle.viz_plan_meaning.specs.Networks.{ways_to};
ghost use Rattle.viz_plan_walk.specs.TaskSteps.{AreTasks};
ghost use Rattle.viz_cache.specs.Keys.{same_request};
ghost use Rattle.viz_requests.specs.Serving.{serves};

use crate::tasks::Tasks;
use crate::thin::thinned;
use crate::walk::{Asking, Need, Walk, enter};
use std::alloc::{AllocError, Global};
use viz_base::NodeId;
use viz_buckets::Buckets;
use viz_network::{Net, Step};
use viz_parts::Request;

/// What has to be computed, in order, and what of the kept is used for it.
#[derive(Debug, Drop)]
pub struct Plan {
    pub tasks: Vec<Need>,
    pub used: Vec<Need>,
}

// The plan of requests to a step, where each step has one cone.
fn plan_of<A: Asking>(
    alloc: Global,
    asking: &A,
    steps: &[Step],
    place: usize,
    requests: &[Request],
) -> Result<Plan, AllocError>
    requires one { (cone : ℕ → Upstream) × IsOne cone (to_step 256 steps.now place) }
    requires order { A.order asking.now ≡ nodes_of steps.now }
    ensures tasks { IfOk result (λ p. named p.tasks.items ≡ plan serves (A.kept asking.now)
        (A.widened asking.now) (A.asked asking.now) (to_step 256 steps.now place) requests.now) }
    ensures used { IfOk result (λ p. named p.used.items ≡ used same_request (A.kept asking.now)
        (A.widened asking.now) (A.asked asking.now) (to_step 256 steps.now place) requests.now) }
{
    let expected = steps.len().saturating_mul(requests.len());
    let mut walk = Walk {
        needs: Buckets::new(alloc, expected)?,
        used: Buckets::new(alloc, expected)?,
    };
    for request in requests {
        enter(asking, steps, 256, place, request, &mut walk)?;
    }
    let Walk { needs, used } = walk;
    let tasks = thinned(alloc, needs.list())?;
    let used = used.into_list();
    Ok(Plan { tasks, used })
}

// The place that requests to a step reach.
fn source_at(tasks: &Tasks, place: usize) -> Option<Option<usize>>
    ensures { IfSome result (λ source. slice_get tasks.now.sources.items place ≡ Some source) }
{
    match tasks.sources.get(place) {
        Some(source) => Some(*source),
        None => None,
    }
}

/// The plan of requests to a node of the network, whose step stands at `place`. Requests to a
/// writer go to what feeds it.
///
/// `Err` is want of memory, or comes where a node can't be asked for what is needed of it, as it
/// always can where the requests fit what the nodes make.
pub fn plan_to<A: Asking>(
    alloc: Global,
    asking: &A,
    net: &Net,
    steps: &[Step],
    tasks: &Tasks,
    sink: NodeId,
    place: usize,
    requests: &[Request],
) -> Result<Plan, AllocError>
    requires steps { AreSteps net.now steps.now }
    requires tasks { AreTasks net.now
        (nodes_of steps.now) tasks.now.steps.items tasks.now.sources.items }
    requires at { slice_get (nodes_of steps.now) place ≡ Some sink }
    requires order { A.order asking.now ≡ nodes_of steps.now }
    ensures tasks { IfOk result (λ p. named p.tasks.items ≡ plan serves (A.kept asking.now)
        (A.widened asking.now) (A.asked asking.now) (ways_to net.now sink.0) requests.now) }
    ensures used { IfOk result (λ p. named p.used.items ≡ used same_request (A.kept asking.now)
        (A.widened asking.now) (A.asked asking.now) (ways_to net.now sink.0) requests.now) }
{
    match source_at(tasks, place) {
        Some(Some(source)) => plan_of(alloc, asking, &tasks.steps, source, requests),
        Some(None) => Ok(Plan {
            tasks: Vec::new(alloc),
            used: Vec::new(alloc),
        }),
        None => Err(AllocError),
    }
}
