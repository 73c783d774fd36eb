//! Parts that are there, by the places of the steps of their nodes.

ghost use Rattle.std.specs.Prelude.{◌≡◌, ◌++◌, ◌∷◌, [], IfOk, IsTrue, OnOk};
ghost use Rattle.viz_kept.specs.True.{AreTrueIn, HasStamp, IsTrueIn};
ghost use Rattle.viz_network.specs.Network.{Network};
ghost use Rattle.viz_executive.specs.Steps.Tables.{AreExact, IsExactItem};

use crate::ground::Ground;
use std::alloc::{AllocError, Global};
use viz_network::Stamps;
use viz_parts::{Key, Stored};
use viz_plan_law::served_parts_are_cut;

/// One owner more of a stored part.
pub fn copied(item: &Stored) -> Result<Stored, AllocError>
    ensures { IfOk result (λ copy. copy ≡ item.now) }
{
    let part = item.part.copy()?;
    Ok(Stored {
        key: item.key,
        part,
    })
}

fn push(items: &mut Vec<Stored>, item: Stored) -> Result<(), AllocError>
    ensures { OnOk result (items.new.items ≡ items.old.items ++ item ∷ []) }
{
    items.push(item)?;
    Ok(())
}

/// Puts a part behind those of its place. `Err` is want of memory, or comes where there is no such
/// place.
pub fn put(table: &mut Vec<Vec<Stored>>, place: usize, item: Stored) -> Result<(), AllocError>
    ensures { (net : Network) → AreExact net table.old.items → IsExactItem net item
        → OnOk result (AreExact net table.new.items) }
{
    if place >= table.len() {
        return Err(AllocError);
    }
    push(&mut table[place], item)?;
    Ok(())
}

// Whether the node of a key has the key's stamp.
fn is_present(stamps: &Stamps<'_>, key: &Key) -> bool
    ensures { IsTrue result → HasStamp stamps.now key.now }
{
    match stamps.of(key.node) {
        Some(stamp) => stamp == key.stamp,
        None => false,
    }
}

// Puts a kept part where its node has its stamp.
fn put_kept(
    ground: &Ground<'_>,
    stamps: &Stamps<'_>,
    table: &mut Vec<Vec<Stored>>,
    item: &Stored,
) -> Result<(), AllocError>
    requires stamps { stamps.now ≡ ground.now.sites.net }
    requires table { AreExact ground.now.sites.net table.old.items }
    requires item { IsTrueIn ground.now.sites.net item.now }
    ensures { OnOk result (AreExact ground.now.sites.net table.new.items) }
{
    served_parts_are_cut();
    if !is_present(stamps, &item.key) {
        return Ok(());
    }
    let Some(place) = ground.place(item.key.node) else {
        return Ok(());
    };
    put(table, place, copied(item)?)?;
    Ok(())
}

// A place without parts for each step.
fn empty_table(alloc: Global, ground: &Ground<'_>) -> Result<Vec<Vec<Stored>>, AllocError>
    ensures { IfOk result (λ table. AreExact ground.now.sites.net table.items) }
{
    let steps = ground.steps();
    let mut table = Vec::with_capacity(alloc, steps.len())?;
    for _ in 0..steps.len() {
        table.push(Vec::new(alloc))?;
    }
    Ok(table)
}

/// The kept parts whose nodes have their stamps, by the places of the nodes' steps, in the cache's
/// order.
pub fn kept_by_place(
    alloc: Global,
    ground: &Ground<'_>,
    entries: &[Stored],
) -> Result<Vec<Vec<Stored>>, AllocError>
    requires entries { AreTrueIn ground.now.sites.net entries.now }
    ensures { IfOk result (λ table. AreExact ground.now.sites.net table.items) }
{
    let stamps = ground.stamps();
    let mut table = empty_table(alloc, ground)?;
    for item in entries {
        put_kept(ground, &stamps, &mut table, item)?;
    }
    Ok(table)
}
