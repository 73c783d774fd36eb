//! Parts for requests, cut from those that are there.

ghost use Rattle.std.specs.Prelude.{◌≡◌, IfOk, IfSome, IsTrue, Some, slice_get, true};
ghost use Rattle.viz_network.specs.Cone.{cone_of};
ghost use Rattle.viz_plan_law.specs.Cutting.{IsExactPart};
ghost use Rattle.viz_requests.specs.Serving.{serves};
ghost use Rattle.viz_executive.specs.Steps.Tables.{AreExact, AreFetched, IsFetched, IsFound};

use crate::ground::Ground;
use std::alloc::{AllocError, Global};
use viz_base::{NodeId, Shared};
use viz_parts::{Part, Request, Stored};
use viz_piece_restrict::restrict_shared;
use viz_plan_law::served_parts_are_cut;
use viz_requests::{fits, serves, widened};

fn is_serving(item: &Stored, node: NodeId, wanted: &Request) -> bool
    ensures { IsTrue result → (item.now.key.node ≡ node)
        × (serves item.now.key.request wanted.now ≡ true) }
{
    item.key.node == node && serves(&item.key.request, wanted)
}

// The first part of the node that serves the request.
fn first_serving<'a>(items: &'a [Stored], node: NodeId, wanted: &Request) -> Option<&'a Stored>
    ensures { IfSome result (λ item. IsFound items.now node wanted.now item.now) }
{
    for item in items {
        if is_serving(item, node, wanted) {
            return Some(item);
        }
    }
    None
}

/// The part of the node at a place for a request: cut from the first one that serves what the node
/// makes for it. `Err` is want of memory, or comes where none does.
pub fn fetch(
    alloc: Global,
    ground: &Ground<'_>,
    table: &[Vec<Stored>],
    place: usize,
    node: NodeId,
    request: &Request,
) -> Result<Shared<Part>, AllocError>
    requires at { slice_get ground.now.order place ≡ Some node }
    requires table { AreExact ground.now.sites.net table.now }
    ensures part { IfOk result (IsExactPart (cone_of ground.now.sites.net node.0) request.now) }
{
    served_parts_are_cut();
    let site = ground.site(place, node);
    if !fits(&site.own, request) {
        return Err(AllocError);
    }
    let wanted = widened(&site.settings, &site.own, request);
    let Some(items) = table.get(place) else {
        return Err(AllocError);
    };
    let Some(found) = first_serving(items, node, &wanted) else {
        return Err(AllocError);
    };
    let cut = restrict_shared(alloc, &found.part, &found.key.request, request)?;
    Ok(cut)
}

// The part of the node at a place, if there is a place.
fn fetch_at(
    alloc: Global,
    ground: &Ground<'_>,
    table: &[Vec<Stored>],
    place: &Option<usize>,
    request: &Request,
) -> Result<Option<Shared<Part>>, AllocError>
    requires table { AreExact ground.now.sites.net table.now }
    ensures part { IfOk result (IsFetched ground.now.sites.net ground.now.order request.now
        place.now) }
{
    let Some(place) = place else {
        return Ok(None);
    };
    let Some(step) = ground.steps().get(*place) else {
        return Err(AllocError);
    };
    let part = fetch(alloc, ground, table, *place, step.node, request)?;
    Ok(Some(part))
}

/// The parts of the nodes at places.
pub fn fetch_all(
    alloc: Global,
    ground: &Ground<'_>,
    table: &[Vec<Stored>],
    places: &[Option<usize>],
    request: &Request,
) -> Result<Vec<Option<Shared<Part>>>, AllocError>
    requires table { AreExact ground.now.sites.net table.now }
    ensures parts { IfOk result (λ parts. AreFetched ground.now.sites.net ground.now.order
        request.now places.now parts.items) }
{
    let mut parts = Vec::with_capacity(alloc, places.len())?;
    for place in places {
        parts.push(fetch_at(alloc, ground, table, place, request)?)?;
    }
    Ok(parts)
}
