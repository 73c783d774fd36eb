//! Makes the edits of a batch, all or none.

ghost use Rattle.std.specs.Prelude.{◌≡◌, ◌+◌, ◌≤◌, All, Err, OnOk, length};
ghost use Rattle.viz_network.specs.Edits.{apply};
ghost use Rattle.viz_network.specs.Applies.{MayTakeMemory};
ghost use Rattle.viz_batches.specs.Batches.{apply_all as made_by};
ghost use Rattle.viz_batches.specs.AppliesAll.{AppliesAll, IsSet, IsSoundBefore, MayTakeMemoryAll};
ghost use Rattle.viz_batches.specs.Steps.Making.{Makes, MakesOne};

use crate::batch::Batch;
use crate::sets::{are_sets, check_all};
use crate::stop::BatchStop;
use viz_network::{ApplyStop, Edit, Net, networks_are_sound};

// Makes the edit that has this place in its batch, from 1.
fn make_one(net: &mut Net, at: u32, edit: &Edit, index: u32) -> Result<(), BatchStop>
    requires sound { IsSoundBefore at net.old }
    ensures makes { MakesOne index result net.old net.new (apply at edit.now net.old) }
    ensures sound { IsSoundBefore (at + 1) net.new }
    ensures memory { result ≡ Err BatchStop.Memory → MayTakeMemory edit.now }
{
    networks_are_sound();
    match net.apply(at, edit) {
        Ok(()) => Ok(()),
        Err(ApplyStop::Refused(refusal)) => Err(BatchStop::Refused { index, refusal }),
        Err(ApplyStop::Memory) => Err(BatchStop::Memory),
    }
}

// Makes the edits in order, the first at this position. Where one isn't made, those before it are.
fn make_each(net: &mut Net, at: u32, edits: &[Edit]) -> Result<(), BatchStop>
    requires sound { IsSoundBefore at net.old }
    requires fits { at + length edits.now ≤ 4294967296 }
    ensures makes { Makes result net.new (made_by at edits.now net.old) }
    ensures memory { result ≡ Err BatchStop.Memory → All IsSet edits.now → ⊥ }
{
    for (i, edit) in edits.iter().enumerate() {
        make_one(net, at + i as u32, edit, i as u32 + 1)?;
    }
    Ok(())
}

// Makes Sets alone: none is made before all are found to be accepted.
fn make_sets(net: &mut Net, at: u32, edits: &[Edit]) -> Result<(), BatchStop>
    requires sound { IsSoundBefore at net.old }
    requires fits { at + length edits.now ≤ 4294967296 }
    requires sets { All IsSet edits.now }
    ensures applies { AppliesAll result net.old net.new (made_by at edits.now net.old) }
    ensures memory { result ≡ Err BatchStop.Memory → ⊥ }
{
    check_all(net, edits)?;
    make_each(net, at, edits)
}

// Makes the edits on a copy, which takes the place of the network where all of them are made.
fn make_on_copy(net: &mut Net, at: u32, edits: &[Edit]) -> Result<(), BatchStop>
    requires sound { IsSoundBefore at net.old }
    requires fits { at + length edits.now ≤ 4294967296 }
    ensures applies { AppliesAll result net.old net.new (made_by at edits.now net.old) }
{
    let mut copy = net.copy()?;
    make_each(&mut copy, at, edits)?;
    *net = copy;
    Ok(())
}

/// Makes the edits of the batch in order, the first at this position of the history, which is past
/// all that were used before, and each other at the one behind. A batch that isn't made changes
/// nothing.
///
/// # Errors
///
/// The refusal of the first edit that is refused, with its place in the batch, from 1; and want of
/// memory, which a batch of Sets, and one edit that is no Add and no Load, can't meet.
pub fn apply_all(net: &mut Net, at: u32, batch: &Batch) -> Result<(), BatchStop>
    requires later { IsSoundBefore at net.old }
    requires fits { at + length batch.now ≤ 4294967296 }
    ensures applies { AppliesAll result net.old net.new (made_by at batch.now net.old) }
    ensures memory { result ≡ Err BatchStop.Memory → MayTakeMemoryAll batch.now }
{
    let edits = batch.edits();
    if let [edit] = edits {
        return make_one(net, at, edit, 1);
    }
    if are_sets(edits) {
        return make_sets(net, at, edits);
    }
    make_on_copy(net, at, edits)
}
