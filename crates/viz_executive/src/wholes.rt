//! The dataset of the node of an update, put together of its parts.

ghost use Rattle.std.specs.Prelude.{◌≡◌, ◌<◌, IfOk, length, map};
ghost use Rattle.viz_plan.specs.Told.{extent_told};
ghost use Rattle.viz_requests.specs.Shapes.{requests_of};
ghost use Rattle.viz_executive.specs.Steps.Grounds.{IsReached};
ghost use Rattle.viz_executive.specs.Steps.Tables.{AreExact};
ghost use Rattle.viz_executive.specs.Steps.Wholes.{AreAllAnswered, IsAnswered, IsWhole};

use crate::fetching::fetch;
use crate::ground::Ground;
use std::alloc::{AllocError, Global};
use viz_base::{NodeId, Shared};
use viz_dataset::Dataset;
use viz_node_division::{datasets_are_divided, divisions_share_out};
use viz_parts::{Part, Request, Stored};
use viz_piece_stitch::stitch_shared;
use viz_plan_law::told_is_of_datasets;
use viz_task_parts::parts_are_passed;

/// A request to the node of an update, and the part for it.
#[derive(Drop)]
pub struct Answered {
    pub request: Request,
    pub part: Shared<Part>,
}

// The part of the node of the update for a request.
fn answer(
    alloc: Global,
    ground: &Ground<'_>,
    table: &[Vec<Stored>],
    place: usize,
    node: NodeId,
    request: &Request,
) -> Result<Answered, AllocError>
    requires reached { IsReached ground.now place node }
    requires table { AreExact ground.now.sites.net table.now }
    ensures request { IfOk result (λ a. a.request ≡ request.now) }
    ensures part { IfOk result (λ a. IsAnswered ground.now a.request a.part) }
{
    parts_are_passed();
    ground.known();
    let part = fetch(alloc, ground, table, place, node, request)?;
    Ok(Answered {
        request: *request,
        part,
    })
}

/// The parts of the node of the update for all of its requests.
pub fn answers(
    alloc: Global,
    ground: &Ground<'_>,
    table: &[Vec<Stored>],
) -> Result<Vec<Answered>, AllocError>
    requires table { AreExact ground.now.sites.net table.now }
    ensures answered { IfOk result (λ all. AreAllAnswered ground.now all.items) }
{
    let Some((place, node)) = ground.source() else {
        return Err(AllocError);
    };
    let requests = ground.requests();
    let mut all = Vec::with_capacity(alloc, requests.len())?;
    for request in requests {
        all.push(answer(alloc, ground, table, place, node, request)?)?;
    }
    Ok(all)
}

// The part alone, whoever else owns it.
fn part_of(answered: Answered) -> Shared<Part>
    ensures { result ≡ answered.part }
{
    let Answered {
        request: _request,
        part,
    } = answered;
    part
}

// The parts, in the order of their requests.
fn parts_of(alloc: Global, answered: Vec<Answered>) -> Result<Vec<Shared<Part>>, AllocError>
    ensures { IfOk result (λ v. v.items ≡ map (λ a. a.part) answered.items) }
{
    let mut parts = Vec::with_capacity(alloc, answered.len())?;
    for one in answered {
        parts.push(part_of(one))?;
    }
    Ok(parts)
}

/// The dataset of the node of the update, put together of its parts for the requests of so many
/// pieces. Parts are read where they lie, and those that have no other owner are given up one after
/// the other.
pub fn whole_of(
    alloc: Global,
    ground: &Ground<'_>,
    _pieces: u32,
    answered: Vec<Answered>,
) -> Result<Dataset, AllocError>
    requires all { AreAllAnswered ground.now answered.items }
    requires requests { ground.now.requests ≡ requests_of (extent_told ground.now.sites.told
        ground.now.sink)
        _pieces }
    requires some { 0 < length ground.now.requests }
    ensures whole { IfOk result (IsWhole ground.now) }
{
    datasets_are_divided();
    divisions_share_out();
    told_is_of_datasets();
    ground.known();
    let parts = parts_of(alloc, answered)?;
    let whole = stitch_shared(alloc, parts)?;
    Ok(whole)
}
