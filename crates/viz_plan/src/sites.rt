//! What is known of the nodes of steps, and what is kept of them, by places.

ghost use Rattle.std.specs.Prelude.{◌≡◌, ◌<◌, IfOk, Some, find, length, slice_get};
ghost use Rattle.viz_base.specs.declared.node.NodeId.{NodeId};
ghost use Rattle.viz_network.specs.Step.{AreSteps, nodes_of};
ghost use Rattle.viz_plan_meaning.specs.Known.{asked_at, kept_at, widened_at};
ghost use Rattle.viz_requests.specs.Serving.{serves};
ghost use Rattle.viz_plan.specs.Told.{known_with};
ghost use Rattle.viz_plan.specs.ByNode.{IsFoundSite, extent_shown};
ghost use Rattle.viz_plan.specs.Sites.{AreSites, IsSite, extent_at, first_extent, known_in};

use crate::by_node::{Entry, Shown, extent_shown, kept_by_node, present, told_by_node};
use std::alloc::{AllocError, Global};
use std::marker::Model;
use viz_base::NodeId;
use viz_buckets::Buckets;
use viz_extent::Extent;
use viz_inform::Told;
use viz_network::{Net, Settings, Stamps, Step};
use viz_parts::{Request, Stored};
use viz_plan_walk::Asking;
use viz_requests::{asked, serves, widened};

/// A node's parameters, the extents of its image and of that at its ports, None of meshes, and
/// the requests of what is kept of it with its present stamp, in the cache's order.
#[derive(Debug, Drop)]
pub struct Site {
    pub settings: Settings,
    pub own: Option<Extent>,
    pub whole: Option<Extent>,
    pub kept: Vec<Request>,
}

/// The sites of all steps of a network. Contracts see what is known and the nodes of the steps.
#[derive(Drop)]
pub struct Sites<'a> {
    net: &'a Net,
    told: &'a [Told],
    entries: &'a [Stored],
    steps: &'a [Step],
    sites: Vec<Site>,
}

impl<'a> Model for Sites<'a> {
    ghost use Rattle.viz_network.specs.Step.{nodes_of};
    ghost use Rattle.viz_plan.specs.Sites.{AreSites, SitesData};
    ghost use Rattle.viz_plan.specs.Told.{known_with};

    ghost Value = { SitesData };

    ghost view = { λ s. record {
      net = s.net.now;
      told = s.told.now;
      entries = s.entries.now;
      order = nodes_of s.steps.now;
    } };

    ghost invariant = { λ s. AreSites (known_with s.net.now s.told.now s.entries.now)
        (nodes_of s.steps.now) s.sites.items };
}

// The extent of the node at a place.
fn extent_at(shown: &Buckets<Shown>, steps: &[Step], place: usize) -> Option<Extent>
    ensures { result ≡ extent_at (extent_shown shown.now) (slice_get (nodes_of steps.now) place) }
{
    match steps.get(place) {
        Some(step) => extent_shown(shown, step.node),
        None => None,
    }
}

// The extent at ports that are fed from places.
fn whole_of(shown: &Buckets<Shown>, steps: &[Step], places: &[Option<usize>]) -> Option<Extent>
    ensures { result ≡ first_extent (extent_shown shown.now) (nodes_of steps.now) places.now }
{
    for place in places {
        if let Some(place) = place {
            return extent_at(shown, steps, *place);
        }
    }
    None
}

// The first kept request that serves.
fn first_serving(kept: &[Request], wanted: &Request) -> Option<Request>
    ensures { result ≡ find (λ r. serves r wanted.now) kept.now }
{
    for one in kept {
        if serves(one, wanted) {
            return Some(*one);
        }
    }
    None
}

// What is known of the node of a step.
fn site_of(
    alloc: Global,
    net: &Net,
    stamps: &Stamps<'_>,
    shown: &Buckets<Shown>,
    entries: &Buckets<Entry>,
    steps: &[Step],
    place: usize,
) -> Result<Site, AllocError>
    requires steps { AreSteps net.now steps.now }
    requires stamps { stamps.now ≡ net.now }
    requires within { place < length steps.now }
    ensures { IfOk result (λ site. (x : NodeId) → slice_get (nodes_of steps.now) place ≡ Some x
        → IsFoundSite net.now shown.now entries.now x.0 site) }
{
    let step = steps[place];
    let Some(node) = net.node(step.node) else {
        return Err(AllocError);
    };
    let settings = node.settings;
    let own = extent_shown(shown, node.id);
    let whole = whole_of(shown, steps, &step.inputs);
    let kept = present(alloc, &stamps.of(step.node), step.node, entries)?;
    Ok(Site {
        settings,
        own,
        whole,
        kept,
    })
}

fn all_sites(
    alloc: Global,
    net: &Net,
    told: &[Told],
    entries: &[Stored],
    steps: &[Step],
) -> Result<Vec<Site>, AllocError>
    requires steps { AreSteps net.now steps.now }
    ensures { IfOk result (λ sites. AreSites (known_with net.now told.now entries.now)
        (nodes_of steps.now) sites.items) }
{
    let stamps = net.stamps();
    let shown = told_by_node(alloc, told)?;
    let entries = kept_by_node(alloc, entries)?;
    let mut sites = Vec::with_capacity(alloc, steps.len())?;
    for place in 0..steps.len() {
        let site = site_of(alloc, net, &stamps, &shown, &entries, steps, place)?;
        sites.push(site)?;
    }
    Ok(sites)
}

/// What is known of all nodes of a network with these steps.
pub fn sites_of<'a>(
    alloc: Global,
    net: &'a Net,
    told: &'a [Told],
    entries: &'a [Stored],
    steps: &'a [Step],
) -> Result<Sites<'a>, AllocError>
    requires steps { AreSteps net.now steps.now }
    ensures net { IfOk result (λ s. s.net ≡ net.now) }
    ensures told { IfOk result (λ s. s.told ≡ told.now) }
    ensures entries { IfOk result (λ s. s.entries ≡ entries.now) }
    ensures order { IfOk result (λ s. s.order ≡ nodes_of steps.now) }
{
    let sites = all_sites(alloc, net, told, entries, steps)?;
    Ok(Sites {
        net,
        told,
        entries,
        steps,
        sites,
    })
}

impl<'a> Sites<'a> {
    /// What is known of the node of the step at a place.
    pub fn site_at(&self, place: usize, _node: NodeId) -> &Site
        requires at { slice_get self.now.order place ≡ Some _node }
        ensures site { IsSite (known_in self.now) _node.0 result.now }
    {
        &self.sites[place]
    }
}

impl<'a> Asking for Sites<'a> {
    ghost order = { λ s. s.order };

    ghost widened = { λ s n r. widened_at (known_in s) n r };

    ghost asked = { λ s n r. asked_at (known_in s) n r };

    ghost kept = { λ s n r. kept_at (known_in s) n r };

    fn widen(&self, place: usize, node: NodeId, request: &Request) -> Request {
        let site = self.site_at(place, node);
        widened(&site.settings, &site.own, request)
    }

    fn ask(&self, place: usize, node: NodeId, request: &Request) -> Option<Request> {
        let site = self.site_at(place, node);
        asked(&site.settings, &site.whole, request)
    }

    fn find(&self, place: usize, node: NodeId, request: &Request) -> Option<Request> {
        let site = self.site_at(place, node);
        first_serving(&site.kept, request)
    }
}
