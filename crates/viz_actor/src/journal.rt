//! The entries of a journal, by the rows of a report.

ghost use Rattle.std.specs.Prelude.{◌≡◌, [], List, ℕ, IfOk, All, Some, length, map};
ghost use Rattle.viz_actor.specs.Journals.{numbered};
ghost use Rattle.viz_actor.specs.Numbering.{Agree, AreOwn, IsCounted, TellsActor, running};
ghost use Rattle.viz_actor.specs.Numbering.{with_numbers};

use std::alloc::{AllocError, Global};
use viz_base::ACTORS;
use viz_entries::Entry;
use viz_journal::JournalEntry;
use viz_report::{Line, Row};

/// A count for each actor, by its number from 1.
const COUNTS: usize = ACTORS as usize + 1;

/// Puts the actor of a row at the place of its entry, where it tells of one.
fn put_actor(found: &mut [Option<u32>], row: &Row) -> Result<(), AllocError>
    ensures { (actors : List ℕ) → TellsActor actors row.now → Agree found.old actors
        → Agree found.new actors }
{
    let Line::Edit { at } = row.line else {
        return Ok(());
    };
    let at = at as usize;
    if at == 0 || at > found.len() {
        return Err(AllocError);
    }
    found[at - 1] = Some(row.actor);
    Ok(())
}

/// The actors that the rows tell, by the places of their entries.
fn actors_found(alloc: Global, entries: usize, rows: &[Row]) -> Result<Vec<Option<u32>>, AllocError>
    ensures { IfOk result (λ found. (actors : List ℕ) → length actors ≡ entries
        → All (TellsActor actors) rows.now → Agree found.items actors) }
{
    let mut found = vec![in alloc; None; entries]?;
    for row in rows {
        put_actor(&mut found, row)?;
    }
    Ok(found)
}

/// The actors, where all are found.
fn all_found(alloc: Global, found: &[Option<u32>]) -> Result<Vec<u32>, AllocError>
    ensures { IfOk result (λ actors. found.now ≡ map Some actors.items) }
{
    let mut actors = Vec::with_capacity(alloc, found.len())?;
    for actor in found {
        actors.push(actor.ok_or(AllocError)?)?;
    }
    Ok(actors)
}

/// Counts one more of an actor.
fn count_one(counts: &mut [u32], actor: u32) -> Result<u32, AllocError>
    ensures { IfOk result (λ count. IsCounted actor count counts.old counts.new) }
{
    let actor = actor as usize;
    if actor >= counts.len() {
        return Err(AllocError);
    }
    let count = counts[actor].checked_add(1).ok_or(AllocError)?;
    counts[actor] = count;
    Ok(count)
}

/// The number of each among those of its actor, from 1.
fn running_numbers(alloc: Global, actors: &[u32]) -> Result<Vec<u32>, AllocError>
    ensures { IfOk result (λ numbers. numbers.items ≡ running [] actors.now) }
{
    let mut counts = [0; COUNTS];
    let mut numbers = Vec::with_capacity(alloc, actors.len())?;
    for actor in actors {
        numbers.push(count_one(&mut counts, *actor)?)?;
    }
    Ok(numbers)
}

/// The entries with their actors and numbers.
fn entries_with(
    alloc: Global,
    history: Vec<Entry>,
    actors: &[u32],
    numbers: &[u32],
) -> Result<Vec<JournalEntry>, AllocError>
    ensures { IfOk result (λ entries.
        entries.items ≡ with_numbers history.items actors.now numbers.now) }
{
    let mut entries = Vec::with_capacity(alloc, history.len())?;
    for ((entry, actor), count) in history.into_iter().zip(actors).zip(numbers) {
        entries.push(JournalEntry {
            actor: *actor,
            count: *count,
            batch: entry.batch,
        })?;
    }
    Ok(entries)
}

/// The entries of the journal of a history, by the rows that tell of them.
pub fn journal_entries(
    alloc: Global,
    history: Vec<Entry>,
    rows: &[Row],
) -> Result<Vec<JournalEntry>, AllocError>
    ensures { IfOk result (λ entries. (passes : List (List ℕ))
        → AreOwn passes history.items rows.now
        → entries.items ≡ numbered passes [] history.items) }
{
    let found = actors_found(alloc, history.len(), rows)?;
    let actors = all_found(alloc, &found)?;
    let numbers = running_numbers(alloc, &actors)?;
    entries_with(alloc, history, &actors, &numbers)
}
