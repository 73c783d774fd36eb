//! The data pass: the dataset of each step that is asked for.

ghost use Rattle.std.specs.Prelude.{◌≡◌, IfOk, length};
ghost use Rattle.viz_legacy_read.specs.Reading.{IsSound};
ghost use Rattle.viz_network.specs.Step.{AreSteps};
ghost use Rattle.viz_node_meaning.specs.Data.{DataRule};
ghost use Rattle.viz_node_meaning.specs.Fold.{IsMade};
ghost use Rattle.viz_scratch.specs.Steps.Readers.{AreReaders};
ghost use Rattle.viz_node_rules.specs.Places.{AreSoundIn};
ghost use Rattle.viz_inform.specs.Table.{told, IsTable};
ghost use Rattle.viz_scratch.specs.Steps.Table.{is_read, IsReleased};

use std::alloc::{AllocError, Global};
use viz_base::Shared;
use viz_dataset::Dataset;
use viz_inform::fault_in;
use viz_network::{Fault, Net, Node, Step};
use viz_node_rules::{Held, OwnStop, own_dataset};

/// What a step gives, from what feeds its ports.
fn given(
    alloc: Global,
    node: &Node,
    table: &[Held],
    places: &[Option<usize>; 8],
) -> Result<Result<Shared<Dataset>, Fault>, AllocError>
    requires sound { AreSoundIn IsSound table.now }
    ensures made { IfOk result (IsMade DataRule node.now (told table.now places.now)) }
    ensures sound { IfOk result (λ value. IfOk value IsSound) }
{
    if let Some(fault) = fault_in(table, places) {
        return Ok(Err(fault));
    }
    match own_dataset(alloc, node, table, places) {
        Ok(dataset) => Ok(Ok(dataset)),
        Err(OwnStop::Cause(cause)) => Ok(Err(Fault {
            node: node.id,
            cause,
        })),
        Err(OwnStop::Memory) => Err(AllocError),
    }
}

// Gives up what feeds a port where step k reads it last.
fn release_one(table: &mut Vec<Held>, last: &[usize], place: &Option<usize>, k: usize)
    ensures { IsReleased last.now k table.old.items table.new.items }
{
    let Some(place) = place else {
        return;
    };
    if *place < table.len() && *place < last.len() && last[*place] == k {
        table[*place] = None;
    }
}

// Gives up what feeds the ports where step k reads it last.
fn release(table: &mut Vec<Held>, last: &[usize], places: &[Option<usize>], k: usize)
    ensures { IsReleased last.now k table.old.items table.new.items }
{
    for place in places {
        release_one(table, last, place, k);
    }
}

/// The dataset of each step that is asked for and not given up, or its first fault. `last` tells
/// where each step is read last, and 0 of a step that isn't asked for.
pub fn data_pass(
    alloc: Global,
    net: &Net,
    steps: &[Step],
    last: &[usize],
) -> Result<Vec<Held>, AllocError>
    requires steps { AreSteps net.now steps.now }
    requires count { length last.now ≡ length steps.now }
    requires readers { AreReaders steps.now last.now }
    ensures { IfOk result (λ table.
        IsTable DataRule IsSound (is_read last.now) net.now steps.now
        (length steps.now) table.items) }
{
    let mut table = Vec::with_capacity(alloc, steps.len())?;
    for (k, step) in steps.iter().enumerate() {
        if last[k] == 0 {
            table.push(None)?;
        } else {
            let node = net.node(step.node).unwrap();
            let value = given(alloc, node, &table, &step.inputs)?;
            table.push(Some(value))?;
            release(&mut table, last, &step.inputs, k);
        }
    }
    Ok(table)
}
