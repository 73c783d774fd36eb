//! The tasks of one level, done on workers.

ghost use Rattle.std.specs.Prelude.{◌≡◌, ◌+◌, ◌++◌, ◌∷◌, [], ◌^◌, ◌<◌, IfOk, OnOk, length, vec_len};
ghost use Rattle.viz_plan.specs.Sites.{known_in};
ghost use Rattle.viz_executive.specs.Steps.Tables.{AreExact};
ghost use Rattle.viz_executive.specs.Steps.Tasks.{AreItemsOf, ArePlanned, HasItem};
ghost use Rattle.viz_workers.specs.Level.{AreItems};

use crate::ground::Ground;
use crate::tasks::run_task;
use std::alloc::{AllocError, Global};
use std::thread::Threads;
use viz_base::Gate;
use viz_node_rules::OwnStop;
use viz_parts::{Key, Stored};
use viz_workers::{Job, run_level};

// The tasks of a level: what they go by, the parts that are there, and their keys. Tasks are
// numbered from the first one on.
#[derive(Drop)]
struct Level<'a, 'b> {
    alloc: Global,
    ground: &'a Ground<'b>,
    table: &'a [Vec<Stored>],
    keys: &'a [Key],
    first: u64,
}

impl<'a, 'b> Job for Level<'a, 'b> {
    ghost use Rattle.viz_executive.specs.Steps.Tasks.{HasItem, IsLevelTask};

    type Item = Result<Stored, OwnStop>;

    ghost may = { λ level task. IsLevelTask level.ground.now level.table.now level.keys.now
        level.first task };

    ghost has = { λ level task item. HasItem level.ground.now level.keys.now level.first task
        item };

    fn work(&self, task: u64) -> Result<Stored, OwnStop> {
        let index = (task - self.first) as usize;
        run_task(self.alloc, self.ground, self.table, &self.keys[index])
    }
}

fn push(all: &mut Vec<Stored>, item: Stored) -> Result<(), AllocError>
    ensures { OnOk result (all.new.items ≡ all.old.items ++ item ∷ []) }
{
    all.push(item)?;
    Ok(())
}

// All items, where all tasks came out; else the stop of the first that didn't.
fn all_items(
    alloc: Global,
    _ground: &Ground<'_>,
    _keys: &[Key],
    _first: u64,
    items: Vec<Result<Stored, OwnStop>>,
) -> Result<Vec<Stored>, OwnStop>
    requires len { vec_len items ≡ length _keys.now }
    requires items { AreItems (HasItem _ground.now _keys.now _first) _first items.items }
    ensures items { IfOk result (λ all. AreItemsOf _ground.now.sites.net _keys.now all.items) }
{
    let mut all = Vec::with_capacity(alloc, items.len())?;
    for item in items {
        push(&mut all, item?)?;
    }
    Ok(all)
}

/// What the tasks of a level make, in their order. Each enters the gate with its number.
pub fn run_tasks<R: Threads + Sync, G: Gate + Sync>(
    rt: &R,
    alloc: Global,
    ground: &Ground<'_>,
    table: &[Vec<Stored>],
    keys: &[Key],
    first: u64,
    workers: u32,
    gate: &G,
) -> Result<Vec<Stored>, OwnStop>
    requires table { AreExact ground.now.sites.net table.now }
    requires planned { ArePlanned (known_in ground.now.sites) ground.now.sink
        ground.now.requests keys.now }
    requires workers { 0 < workers }
    requires room { first + length keys.now < 2 ^ 64 }
    ensures items { IfOk result (λ all. AreItemsOf ground.now.sites.net keys.now all.items) }
{
    let level = Level {
        alloc,
        ground,
        table,
        keys,
        first,
    };
    let items = run_level(rt, alloc, &level, first, keys.len() as u64, workers, gate)?;
    all_items(alloc, ground, keys, first, items)
}
