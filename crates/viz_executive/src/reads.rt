//! How long the parts of a node are read.

ghost use Rattle.viz_network.specs.Network.{Network};
ghost use Rattle.viz_executive.specs.Steps.Tables.{AreExact};

use crate::ground::Ground;
use std::alloc::{AllocError, Global};
use viz_parts::{Key, Stored};

// Notes that a place is read up to so many tasks.
fn note(until: &mut Vec<u64>, place: usize, tasks: u64) {
    if place < until.len() {
        until[place] = tasks;
    }
}

// Notes what a task reads.
fn note_task(ground: &Ground<'_>, until: &mut Vec<u64>, key: &Key, tasks: u64) {
    let Some(place) = ground.place(key.node) else {
        return;
    };
    let Some(places) = ground.inputs(place, key.node) else {
        return;
    };
    for input in places {
        if let Some(input) = input {
            note(until, *input, tasks);
        }
    }
}

// Notes what the tasks of a level read, which end at so many tasks.
fn note_level(ground: &Ground<'_>, until: &mut Vec<u64>, keys: &[Key], tasks: u64) {
    for key in keys {
        note_task(ground, until, key, tasks);
    }
}

/// How many tasks stand up to the end of the last level that reads the parts of each step's node, 0
/// where none does. Those of the node of the update are read behind all tasks.
pub fn read_until(
    alloc: Global,
    ground: &Ground<'_>,
    levels: &[Vec<Key>],
) -> Result<Vec<u64>, AllocError> {
    let mut until = Vec::with_capacity(alloc, ground.steps().len())?;
    for _ in 0..ground.steps().len() {
        until.push(0)?;
    }
    let mut tasks: u64 = 0;
    for keys in levels {
        tasks = tasks.saturating_add(keys.len() as u64);
        note_level(ground, &mut until, keys, tasks);
    }
    if let Some((place, _)) = ground.source() {
        note(&mut until, place, u64::MAX);
    }
    Ok(until)
}

// Gives up the parts of a place.
fn clear(table: &mut Vec<Vec<Stored>>, place: usize)
    ensures { (net : Network) → AreExact net table.old.items → AreExact net table.new.items }
{
    if place < table.len() {
        table[place].clear();
    }
}

/// Gives up the parts that no task reads behind so many tasks.
pub fn give_up(table: &mut Vec<Vec<Stored>>, until: &[u64], tasks: u64)
    ensures { (net : Network) → AreExact net table.old.items → AreExact net table.new.items }
{
    for place in 0..until.len() {
        if until[place] <= tasks {
            clear(table, place);
        }
    }
}
