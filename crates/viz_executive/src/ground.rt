//! What the tasks of an update go by.

ghost use Rattle.std.specs.Prelude.{◌≡◌, IfOk, IfSome, Some, slice_get};
ghost use Rattle.std.specs.Option.{option_copied};
ghost use Rattle.viz_network.specs.Network.{node_of};
ghost use Rattle.viz_network.specs.Step.{AreSteps, nodes_of};
ghost use Rattle.viz_plan.specs.Sites.{IsSite, known_in};
ghost use Rattle.viz_plan.specs.Told.{known_with};
ghost use Rattle.viz_plan_meaning.specs.Networks.{ways_at};
ghost use Rattle.viz_plan_meaning.specs.Plan.{heads};
ghost use Rattle.viz_plan_walk.specs.TaskSteps.{AreSourced};
ghost use Rattle.viz_task_parts.specs.Tasks.{IsUpdate};
ghost use Rattle.viz_executive.specs.Steps.Grounds.{IsReached};

use crate::places::{Placed, place_in, places_of};
use std::alloc::{AllocError, Global};
use std::marker::Model;
use viz_base::NodeId;
use viz_buckets::Buckets;
use viz_inform::{Told, place_of};
use viz_network::{Net, Node, Stamps, Step};
use viz_parts::{Request, Stored};
use viz_plan::{Site, Sites, sites_of};
use viz_plan_walk::{Tasks, task_steps};

/// A network with its steps, what is known of its nodes, and the requests of an update of one.
/// Contracts see what is told and kept, the nodes of the steps, the node of the update and its
/// requests.
#[derive(Drop)]
pub struct Ground<'a> {
    net: &'a Net,
    sites: Sites<'a>,
    steps: &'a [Step],
    tasks: Tasks,
    places: Buckets<Placed>,
    sink: NodeId,
    requests: &'a [Request],
}

impl<'a> Model for Ground<'a> {
    ghost use Rattle.viz_network.specs.Step.{nodes_of};
    ghost use Rattle.viz_executive.specs.Steps.Grounds.{GroundData, IsGround};

    ghost Value = { GroundData };

    ghost view = { λ g. record {
      sites = g.sites;
      order = nodes_of g.steps.now;
      sink = g.sink.0;
      requests = g.requests.now;
    } };

    ghost invariant = { λ g. IsGround g.net.now g.sites g.steps.now g.tasks.steps.items
        g.tasks.sources.items g.sink.0 g.requests.now };
}

impl<'a> Ground<'a> {
    /// What an update goes by whose requests can be made.
    pub fn new(
        alloc: Global,
        net: &'a Net,
        told: &'a [Told],
        entries: &'a [Stored],
        steps: &'a [Step],
        sink: NodeId,
        requests: &'a [Request],
    ) -> Result<Ground<'a>, AllocError>
        requires steps { AreSteps net.now steps.now }
        requires update { IsUpdate (known_with net.now told.now entries.now) sink.0 requests.now }
        ensures net { IfOk result (λ g. g.sites.net ≡ net.now) }
        ensures told { IfOk result (λ g. g.sites.told ≡ told.now) }
        ensures entries { IfOk result (λ g. g.sites.entries ≡ entries.now) }
        ensures order { IfOk result (λ g. g.order ≡ nodes_of steps.now) }
        ensures sink { IfOk result (λ g. g.sink ≡ sink.0) }
        ensures requests { IfOk result (λ g. g.requests ≡ requests.now) }
    {
        let sites = sites_of(alloc, net, told, entries, steps)?;
        let tasks = task_steps(alloc, net, steps)?;
        let places = places_of(alloc, steps)?;
        Ok(Ground {
            net,
            sites,
            steps,
            tasks,
            places,
            sink,
            requests,
        })
    }

    /// Says what an update goes by to a caller's proof; it does nothing.
    pub fn known(&self)
        ensures update { IsUpdate (known_in self.now.sites) self.now.sink self.now.requests }
    {
        let _net = self.net;
    }

    /// The requests.
    pub fn requests(&self) -> &[Request]
        ensures { result.now ≡ self.now.requests }
    {
        self.requests
    }

    /// The steps.
    pub fn steps(&self) -> &[Step]
        ensures { nodes_of result.now ≡ self.now.order }
    {
        self.steps
    }

    /// The node with this position of its Add.
    pub fn node(&self, node: NodeId) -> Option<&Node>
        ensures { option_copied result ≡ node_of self.now.sites.net node.0 }
    {
        self.net.node(node)
    }

    /// The stamps of all nodes.
    pub fn stamps(&self) -> Stamps<'_>
        ensures { result ≡ self.now.sites.net }
    {
        self.net.stamps()
    }

    /// The place of the step of a node.
    pub fn place(&self, node: NodeId) -> Option<usize>
        ensures { IfSome result (λ p. slice_get self.now.order p ≡ Some node) }
    {
        place_in(&self.places, self.steps, node)
    }

    /// What is known of the node at a place.
    pub fn site(&self, place: usize, node: NodeId) -> &Site
        requires at { slice_get self.now.order place ≡ Some node }
        ensures site { IsSite (known_in self.now.sites) node.0 result.now }
    {
        self.sites.site_at(place, node)
    }

    /// The places of what feeds the ports of the node at a place, past writers.
    pub fn inputs(&self, place: usize, _node: NodeId) -> Option<&[Option<usize>]>
        requires at { slice_get self.now.order place ≡ Some _node }
        ensures { IfSome result (λ places. AreSourced self.now.order place
            (heads (ways_at self.now.sites.net _node.0)) places.now) }
    {
        match self.tasks.steps.get(place) {
            Some(step) => Some(&step.inputs),
            None => None,
        }
    }

    /// The place and the node that requests to the node of the update reach.
    pub fn source(&self) -> Option<(usize, NodeId)>
        ensures { IfSome result (λ s. IsReached self.now s.0 s.1) }
    {
        let sink = place_of(self.steps, self.sink)?;
        let Some(Some(place)) = self.tasks.sources.get(sink) else {
            return None;
        };
        let step = self.steps.get(*place)?;
        Some((*place, step.node))
    }
}
