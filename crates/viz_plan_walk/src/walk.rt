//! The needs of a request, each gone into once.

ghost use Rattle.std.specs.Prelude.{◌≡◌, ℕ, IfSome, List, OnOk, Option, Some, None, slice_get};
ghost use Rattle.viz_plan_meaning.specs.Plan.{has as has_need, add as add_need};
ghost use Rattle.viz_plan_meaning.specs.Steps.Visits.{visit, visit_used};
ghost use Rattle.viz_plan_walk.specs.Finding.{number_of, piece_of};
ghost use Rattle.viz_plan_walk.specs.Walk.{named, to_step};
ghost use Rattle.viz_cache.specs.Keys.{same_request};
ghost use Rattle.viz_network.specs.Step.{nodes_of};
ghost use Rattle.viz_parts.specs.declared.request.Part.{Part};
ghost use Rattle.viz_parts.specs.declared.request.Request.{Request as Asked};
ghost use Rattle.viz_base.specs.declared.node.NodeId.{NodeId};

use std::alloc::{AllocError, Global};
use viz_base::NodeId;
use viz_buckets::{Buckets, Numbered};
use viz_network::Step;
use viz_parts::Request;

/// A request at a node, whose step stands at a place.
#[derive(Clone, Copy, PartialEq, Eq, Debug)]
pub struct Need {
    pub place: usize,
    pub node: NodeId,
    pub request: Request,
}

impl Numbered for Need {
    ghost number = { λ need. number_of need.node.0 need.request };

    fn number(&self) -> u64 {
        number_of(self.node, &self.request)
    }
}

fn piece_of(request: &Request) -> u32
    ensures { result ≡ piece_of request.now }
{
    match request {
        Request::Block(_) => 0,
        Request::Piece { p, .. } => *p,
    }
}

/// The number of a request at a node, which what is the same or serves it has too.
pub fn number_of(node: NodeId, request: &Request) -> u64
    ensures { result ≡ number_of node.0 request.now }
{
    u64::from(node.0) * 64 + u64::from(piece_of(request))
}

/// What is met on a walk upstream.
#[derive(Drop)]
pub struct Walk {
    /// What has to be computed, each need behind its own.
    pub needs: Buckets<Need>,
    /// The kept requests that are used.
    pub used: Buckets<Need>,
}

/// What is asked of nodes, by the places of their steps, and what is kept of them.
pub trait Asking {
    ghost order: { Self → List NodeId };

    ghost widened: { Self → ℕ → Asked → Asked };

    ghost asked: { Self → ℕ → Asked → Asked };

    ghost kept: { Self → ℕ → Asked → Option (Asked × Part) };

    /// The request that the node makes for this one.
    fn widen(&self, place: usize, node: NodeId, request: &Request) -> Request
        requires at { slice_get (order self.now) place ≡ Some node }
        ensures value { result ≡ widened self.now node.0 request.now };

    /// What the node asks its inputs for; None where they can't be asked for it.
    fn ask(&self, place: usize, node: NodeId, request: &Request) -> Option<Request>
        requires at { slice_get (order self.now) place ≡ Some node }
        ensures value { IfSome result (λ r. r ≡ asked self.now node.0 request.now) };

    /// The first kept request that serves.
    fn find(&self, place: usize, node: NodeId, request: &Request) -> Option<Request>
        requires at { slice_get (order self.now) place ≡ Some node }
        ensures some { IfSome result (λ r. (p : Part) × (kept self.now node.0 request.now ≡ Some
            (r, p))) }
        ensures none { result ≡ None → kept self.now node.0 request.now ≡ None };
}

// Whether the need is among some.
fn is_among(seen: &[Need], node: NodeId, request: &Request) -> bool
    ensures { result ≡ has_need same_request (named seen.now) node.0 request.now }
{
    for need in seen {
        if need.node == node && need.request == *request {
            return true;
        }
    }
    false
}

// Whether the list has the need.
fn has(seen: &Buckets<Need>, node: NodeId, request: &Request) -> bool
    ensures { result ≡ has_need same_request (named seen.now) node.0 request.now }
{
    is_among(seen.bucket(number_of(node, request)), node, request)
}

// Adds a need where the list hasn't it.
fn add(
    list: &mut Buckets<Need>,
    place: usize,
    node: NodeId,
    request: &Request,
) -> Result<(), AllocError>
    ensures { OnOk result (named list.new ≡ add_need same_request
        (named list.old) node.0 request.now) }
{
    if !has(list, node, request) {
        list.push(Need {
            place,
            node,
            request: *request,
        })?;
    }
    Ok(())
}

/// The places that feed a step's ports.
pub fn inputs_of(step: &Step) -> &[Option<usize>]
    ensures { result.now ≡ step.now.inputs }
{
    &step.inputs
}

/// Adds what is needed for a request at a step.
pub fn enter<A: Asking>(
    asking: &A,
    steps: &[Step],
    fuel: u32,
    place: usize,
    request: &Request,
    walk: &mut Walk,
) -> Result<(), AllocError>
    requires order { A.order asking.now ≡ nodes_of steps.now }
    ensures needs { OnOk result (named walk.new.needs ≡ visit same_request
        (A.kept asking.now) (A.widened asking.now) (A.asked asking.now)
        (to_step fuel steps.now place) request.now (named walk.old.needs)) }
    ensures used { OnOk result (named walk.new.used ≡ visit_used same_request
        (A.kept asking.now) (A.widened asking.now) (A.asked asking.now)
        (to_step fuel steps.now place) request.now (named walk.old.needs)
        (named walk.old.used)) }
{
    if fuel == 0 {
        return Ok(());
    }
    let Some(step) = steps.get(place) else {
        return Ok(());
    };
    let node = step.node;
    let wanted = asking.widen(place, node, request);
    if let Some(kept) = asking.find(place, node, &wanted) {
        add(&mut walk.used, place, node, &kept)?;
        return Ok(());
    }
    if has(&walk.needs, node, &wanted) {
        return Ok(());
    }
    let Some(asked) = asking.ask(place, node, &wanted) else {
        return Err(AllocError);
    };
    let inputs = inputs_of(step);
    for input in inputs {
        if let Some(up) = input {
            enter(asking, steps, fuel - 1, *up, &asked, walk)?;
        }
    }
    add(&mut walk.needs, place, node, &wanted)?;
    Ok(())
}
