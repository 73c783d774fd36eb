//! The levels of a plan, one after the other.

ghost use Rattle.std.specs.Prelude.{◌≡◌, ℕ, ◌+◌, ◌++◌, ◌∷◌, [], ◌<◌, IfOk, List, OnOk, length};
ghost use Rattle.std.specs.List.{All};
ghost use Rattle.viz_plan.specs.Sites.{known_in};
ghost use Rattle.viz_parts.specs.declared.request.Request.{Request as Asked};
ghost use Rattle.viz_plan.specs.Told.{needs_in};
ghost use Rattle.viz_plan.specs.Published.{keys_of, need_of};
ghost use Rattle.viz_executive.specs.Steps.Carrying.{ArePlannedLevels};
ghost use Rattle.viz_executive.specs.Steps.Tables.{AreExact};
ghost use Rattle.viz_executive.specs.Steps.Tasks.{
  ArePlanned,
  IsDone,
  IsTaskItem,
  all_needs,
  is_staying,
  staying,
};

use crate::ground::Ground;
use crate::level::run_tasks;
use crate::reads::give_up;
use crate::table::{copied, put};
use std::alloc::{AllocError, Global};
use std::thread::Threads;
use viz_base::{Gate, NodeId};
use viz_node_rules::OwnStop;
use viz_parts::{Key, Stored};

/// What stands after some tasks: the parts that are there, by the places of the steps of their
/// nodes, and those that tasks made of nodes that aren't released, in the order of the tasks.
#[derive(Drop)]
pub struct Done {
    pub table: Vec<Vec<Stored>>,
    pub made: Vec<Stored>,
}

// Whether the parts of a node stay.
fn is_staying(ground: &Ground<'_>, node: NodeId) -> bool
    ensures { result ≡ is_staying ground.now.sites.net node.0 }
{
    match ground.node(node) {
        Some(node) => !node.release,
        None => false,
    }
}

// Adds one owner more of a part where it stays.
fn keep_made(made: &mut Vec<Stored>, is_staying: bool, item: &Stored) -> Result<(), AllocError>
    ensures { OnOk result (made.new.items ≡ made.old.items ++ staying is_staying item.now) }
{
    if is_staying {
        made.push(copied(item)?)?;
    }
    Ok(())
}

// Keeps what a task made.
fn keep(ground: &Ground<'_>, done: &mut Done, item: Stored) -> Result<(), AllocError>
    requires item { IsTaskItem ground.now.sites.net item }
    ensures { (needs : List (ℕ × Asked))
        → IsDone ground.now.sites.net needs done.old.table.items done.old.made.items
        → OnOk result (IsDone ground.now.sites.net (needs ++ need_of item.key ∷ [])
        done.new.table.items done.new.made.items) }
{
    let Some(place) = ground.place(item.key.node) else {
        return Err(AllocError);
    };
    keep_made(&mut done.made, is_staying(ground, item.key.node), &item)?;
    put(&mut done.table, place, item)?;
    Ok(())
}

// Keeps what the tasks of a level made.
fn keep_all(ground: &Ground<'_>, done: &mut Done, items: Vec<Stored>) -> Result<(), AllocError>
    requires items { All (IsTaskItem ground.now.sites.net) items.items }
    ensures { (needs : List (ℕ × Asked))
        → IsDone ground.now.sites.net needs done.old.table.items done.old.made.items
        → OnOk result (IsDone ground.now.sites.net (needs ++ needs_in (keys_of items.items))
        done.new.table.items done.new.made.items) }
{
    for item in items {
        keep(ground, done, item)?;
    }
    Ok(())
}

// Runs a level behind so many tasks, and gives the number of tasks behind it.
fn run_one<R: Threads + Sync, G: Gate + Sync>(
    rt: &R,
    alloc: Global,
    ground: &Ground<'_>,
    done: &mut Done,
    keys: &[Key],
    first: u64,
    workers: u32,
    gate: &G,
) -> Result<u64, OwnStop>
    requires planned { ArePlanned (known_in ground.now.sites) ground.now.sink
        ground.now.requests keys.now }
    requires workers { 0 < workers }
    requires exact { AreExact ground.now.sites.net done.old.table.items }
    ensures number { IfOk result (λ n. n ≡ first + length keys.now) }
    ensures done { (needs : List (ℕ × Asked))
        → IsDone ground.now.sites.net needs done.old.table.items done.old.made.items
        → OnOk result (IsDone ground.now.sites.net (needs ++ needs_in keys.now)
        done.new.table.items done.new.made.items) }
{
    let Some(next) = first.checked_add(keys.len() as u64) else {
        return Err(OwnStop::Memory);
    };
    let items = run_tasks(rt, alloc, ground, &done.table, keys, first, workers, gate)?;
    keep_all(ground, done, items)?;
    Ok(next)
}

/// Runs all levels, and gives the number of their tasks. Behind a level parts are given up that are
/// read until then, as counted in tasks by the places of their nodes' steps.
///
/// # Errors
///
/// `Cause` where a task's node has a fault of its own. Want of memory may come in place of it.
pub fn run_levels<R: Threads + Sync, G: Gate + Sync>(
    rt: &R,
    alloc: Global,
    ground: &Ground<'_>,
    done: &mut Done,
    levels: &[Vec<Key>],
    until: &[u64],
    workers: u32,
    gate: &G,
) -> Result<u64, OwnStop>
    requires planned { ArePlannedLevels (known_in ground.now.sites) ground.now.sink
        ground.now.requests levels.now }
    requires workers { 0 < workers }
    requires done { IsDone ground.now.sites.net [] done.old.table.items done.old.made.items }
    ensures number { IfOk result (λ n. n ≡ length (all_needs levels.now)) }
    ensures done { OnOk result (IsDone ground.now.sites.net (all_needs levels.now)
        done.new.table.items done.new.made.items) }
{
    let mut ran = 0;
    for keys in levels {
        ran = run_one(rt, alloc, ground, done, keys, ran, workers, gate)?;
        give_up(&mut done.table, until, ran);
    }
    Ok(ran)
}
