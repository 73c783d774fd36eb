//! One task of a plan.

ghost use Rattle.std.specs.Prelude.{◌≡◌, IfOk, IfSome, Some, slice_get};
ghost use Rattle.std.specs.List.{Contains};
ghost use Rattle.viz_plan.specs.Sites.{known_in};
ghost use Rattle.viz_plan_meaning.specs.Known.{asked_at};
ghost use Rattle.viz_plan_meaning.specs.Laws.{plan_of};
ghost use Rattle.viz_plan_truth.specs.Truth.{IsTaskPart};
ghost use Rattle.viz_task_parts.specs.Tasks.{HasParts};
ghost use Rattle.viz_kept.specs.True.{HasStamp};
ghost use Rattle.viz_executive.specs.Steps.Tables.{AreExact};
ghost use Rattle.viz_executive.specs.Steps.Tasks.{IsItemOf};
ghost use Rattle.viz_plan.specs.Published.{need_of};

use crate::fetching::fetch_all;
use crate::ground::Ground;
use std::alloc::{AllocError, Global};
use viz_base::Shared;
use viz_node_parts::node_part;
use viz_node_rules::OwnStop;
use viz_parts::{Key, Part, Request, Stored};
use viz_requests::asked;
use viz_task_parts::tasks_make_parts;

// What the task asks its inputs for.
fn request_of(ground: &Ground<'_>, place: usize, key: &Key) -> Option<Request>
    requires at { slice_get ground.now.order place ≡ Some key.now.node }
    ensures { IfSome result (λ r. r ≡ asked_at (known_in ground.now.sites) key.now.node.0
        key.now.request) }
{
    let site = ground.site(place, key.node);
    asked(&site.settings, &site.whole, &key.request)
}

// The parts at the ports of the task's node.
fn parts_for(
    alloc: Global,
    ground: &Ground<'_>,
    table: &[Vec<Stored>],
    place: usize,
    key: &Key,
) -> Result<Vec<Option<Shared<Part>>>, AllocError>
    requires at { slice_get ground.now.order place ≡ Some key.now.node }
    requires table { AreExact ground.now.sites.net table.now }
    ensures parts { IfOk result (λ parts. HasParts (known_in ground.now.sites) (need_of key.now)
        parts.items) }
{
    let Some(request) = request_of(ground, place, key) else {
        return Err(AllocError);
    };
    let Some(places) = ground.inputs(place, key.node) else {
        return Err(AllocError);
    };
    let parts = fetch_all(alloc, ground, table, places, &request)?;
    Ok(parts)
}

// What a task makes of the parts that are there.
fn task_part(
    alloc: Global,
    ground: &Ground<'_>,
    table: &[Vec<Stored>],
    key: &Key,
) -> Result<Part, OwnStop>
    requires table { AreExact ground.now.sites.net table.now }
    requires planned { Contains (plan_of (known_in ground.now.sites) ground.now.sink
        ground.now.requests) (need_of key.now) }
    ensures part { IfOk result (IsTaskPart ground.now.sites.net key.now.node.0 key.now.request) }
{
    tasks_make_parts();
    ground.known();
    let Some(place) = ground.place(key.node) else {
        return Err(OwnStop::Memory);
    };
    let parts = parts_for(alloc, ground, table, place, key)?;
    let Some(node) = ground.node(key.node) else {
        return Err(OwnStop::Memory);
    };
    let site = ground.site(place, key.node);
    let part = node_part(alloc, node, &site.whole, &key.request, &parts)?;
    Ok(part)
}

/// What a task makes of the parts that are there, under its key.
///
/// # Errors
///
/// `Cause` where its node has a fault of its own. Want of memory may come in place of both.
pub fn run_task(
    alloc: Global,
    ground: &Ground<'_>,
    table: &[Vec<Stored>],
    key: &Key,
) -> Result<Stored, OwnStop>
    requires table { AreExact ground.now.sites.net table.now }
    requires planned { Contains (plan_of (known_in ground.now.sites) ground.now.sink
        ground.now.requests) (need_of key.now) }
    requires stamp { HasStamp ground.now.sites.net key.now }
    ensures item { IfOk result (IsItemOf ground.now.sites.net key.now) }
{
    let part = task_part(alloc, ground, table, key)?;
    let part = Shared::new(alloc, part)?;
    Ok(Stored { key: *key, part })
}
