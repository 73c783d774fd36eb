//! A plan carried out.

ghost use Rattle.std.specs.Prelude.{◌≡◌, ◌<◌, [], IfOk, length};
ghost use Rattle.viz_plan.specs.Sites.{known_in};
ghost use Rattle.viz_plan.specs.Told.{extent_told};
ghost use Rattle.viz_kept.specs.True.{AreTrueIn};
ghost use Rattle.viz_requests.specs.Shapes.{requests_of};
ghost use Rattle.viz_executive.specs.Steps.Carrying.{ArePlannedLevels, IsCarriedOut};
ghost use Rattle.viz_executive.specs.Steps.Tables.{AreExact};
ghost use Rattle.viz_executive.specs.Steps.Tasks.{IsDone};
ghost use Rattle.viz_executive.specs.Steps.Wholes.{AreAllAnswered};

use crate::ground::Ground;
use crate::levels::{Done, run_levels};
use crate::only::{asks_for_all, take_only};
use crate::reads::read_until;
use crate::table::kept_by_place;
use crate::wholes::{Answered, answers, whole_of};
use std::alloc::{AllocError, Global};
use std::thread::Threads;
use viz_base::{Gate, Shape};
use viz_dataset::Dataset;
use viz_node_rules::OwnStop;
use viz_parts::{Key, Stored};

/// The dataset of the node of an update, the parts that tasks made of nodes that aren't released,
/// in the order of the tasks, the key of the last of them where the dataset is that part itself,
/// and the number of tasks.
#[derive(Drop)]
pub struct Carried {
    pub dataset: Dataset,
    pub made: Vec<Stored>,
    pub only: Option<Key>,
    pub ran: u64,
}

// What stands before the first task.
fn begun(alloc: Global, ground: &Ground<'_>, entries: &[Stored]) -> Result<Done, AllocError>
    requires entries { AreTrueIn ground.now.sites.net entries.now }
    ensures done { IfOk result (λ d. IsDone ground.now.sites.net [] d.table.items d.made.items) }
{
    let table = kept_by_place(alloc, ground, entries)?;
    Ok(Done {
        table,
        made: Vec::new(alloc),
    })
}

// The parts of the node of the update. All others are given up, but those that have other owners.
fn last_answers(
    alloc: Global,
    ground: &Ground<'_>,
    table: Vec<Vec<Stored>>,
) -> Result<Vec<Answered>, AllocError>
    requires table { AreExact ground.now.sites.net table.items }
    ensures answered { IfOk result (λ all. AreAllAnswered ground.now all.items) }
{
    answers(alloc, ground, &table)
}

/// Carries out the levels of a plan.
///
/// # Errors
///
/// `Cause` where a task's node has a fault of its own. Want of memory may come in place of it.
pub fn carry_out<R: Threads + Sync, G: Gate + Sync>(
    rt: &R,
    alloc: Global,
    ground: &Ground<'_>,
    entries: &[Stored],
    shape: &Shape,
    levels: &[Vec<Key>],
    gate: &G,
) -> Result<Carried, OwnStop>
    requires entries { AreTrueIn ground.now.sites.net entries.now }
    requires planned { ArePlannedLevels (known_in ground.now.sites) ground.now.sink
        ground.now.requests levels.now }
    requires requests { ground.now.requests ≡ requests_of (extent_told ground.now.sites.told
        ground.now.sink)
        shape.now.pieces }
    requires some { 0 < length ground.now.requests }
    ensures carried { IfOk result (IsCarriedOut (known_in ground.now.sites) ground.now.sink
        ground.now.requests levels.now) }
{
    ground.known();
    let mut done = begun(alloc, ground, entries)?;
    let until = read_until(alloc, ground, levels)?;
    let ran = run_levels(
        rt,
        alloc,
        ground,
        &mut done,
        levels,
        &until,
        shape.workers,
        gate,
    )?;
    let Done { table, mut made } = done;
    let answered = last_answers(alloc, ground, table)?;
    let only = take_only(ground, &mut made, &answered)?;
    let dataset = whole_of(alloc, ground, shape.pieces, answered)?;
    if !asks_for_all(&only, &dataset) {
        return Err(OwnStop::Memory);
    }
    Ok(Carried {
        dataset,
        made,
        only,
        ran,
    })
}
