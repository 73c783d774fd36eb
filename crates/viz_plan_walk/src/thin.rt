//! The plan: needs without those that an earlier one serves.

ghost use Rattle.std.specs.Prelude.{◌≡◌, IfOk, []};
ghost use Rattle.viz_plan_meaning.specs.Plan.{served, thin};
ghost use Rattle.viz_plan_walk.specs.Walk.{named};
ghost use Rattle.viz_requests.specs.Serving.{serves};

use crate::walk::{Need, number_of};
use std::alloc::{AllocError, Global};
use viz_base::NodeId;
use viz_buckets::Buckets;
use viz_parts::Request;
use viz_requests::serves;

// Whether one of the needs serves the request.
fn serves_among(needs: &[Need], node: NodeId, request: &Request) -> bool
    ensures { result ≡ served serves (named needs.now) node.0 request.now }
{
    for need in needs {
        if need.node == node && serves(&need.request, request) {
            return true;
        }
    }
    false
}

// Whether a need of the list serves another.
fn is_served(front: &Buckets<Need>, need: &Need) -> bool
    ensures { result ≡ served serves (named front.now) need.now.node.0 need.now.request }
{
    let bucket = front.bucket(number_of(need.node, &need.request));
    serves_among(bucket, need.node, &need.request)
}

/// The needs without those that an earlier one serves.
pub fn thinned(alloc: Global, needs: &[Need]) -> Result<Vec<Need>, AllocError>
    ensures { IfOk result (λ plan. named plan.items ≡ thin serves [] (named needs.now)) }
{
    let mut plan = Vec::new(alloc);
    let mut front = Buckets::new(alloc, needs.len())?;
    for need in needs {
        let served = is_served(&front, need);
        front.push(*need)?;
        if !served {
            plan.push(*need)?;
        }
    }
    Ok(plan)
}
