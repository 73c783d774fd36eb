//! The network of the first entries of a journal.

ghost use Rattle.std.specs.Prelude.{◌≡◌, ◌+◌, ◌≤◌, length, take, IfOk, OnOk};
ghost use Rattle.viz_batches.specs.AppliesAll.{IsSoundBefore};
ghost use Rattle.viz_journal.specs.Entries.{edit_limit, edits_of};
ghost use Rattle.viz_network.specs.History.{net_of, net_after, after};
ghost use Rattle.viz_replay.specs.Replay.{network_at};

use std::alloc::{AllocError, Global};
use viz_batches::histories_are_sound;
use viz_journal::JournalEntry;
use viz_network::{ApplyStop, Edit, Net, networks_are_sound};

/// The network after an edit at a position: one that it refuses changes nothing.
fn go_on(net: &mut Net, at: u32, edit: &Edit) -> Result<(), AllocError>
    requires sound { IsSoundBefore at net.old }
    ensures after { OnOk result (net.new ≡ after at edit.now net.old) }
    ensures sound { IsSoundBefore (at + 1) net.new }
{
    networks_are_sound();
    match net.apply(at, edit) {
        Ok(()) | Err(ApplyStop::Refused(_)) => Ok(()),
        Err(ApplyStop::Memory) => Err(AllocError),
    }
}

/// The network after the edits of a batch, the first of which has this position.
fn go_through(net: &mut Net, at: u32, edits: &[Edit]) -> Result<(), AllocError>
    requires sound { IsSoundBefore at net.old }
    requires fits { at + length edits.now ≤ 4294967296 }
    ensures { OnOk result (net.new ≡ net_after at edits.now net.old) }
{
    for (i, edit) in edits.iter().enumerate() {
        go_on(net, at + i as u32, edit)?;
    }
    Ok(())
}

/// So many first entries, or all where there are fewer.
fn first(entries: &[JournalEntry], count: u32) -> &[JournalEntry]
    ensures { result.now ≡ take count entries.now }
{
    let count = count as usize;
    if count < entries.len() {
        &entries[..count]
    } else {
        entries
    }
}

/// The network of these entries.
fn network_after(alloc: Global, entries: &[JournalEntry]) -> Result<Net, AllocError>
    requires few { length (edits_of entries.now) ≤ edit_limit }
    ensures { IfOk result (λ net. net ≡ net_of (edits_of entries.now)) }
{
    histories_are_sound();
    let mut net = Net::new(alloc);
    let mut before = 0;
    for entry in entries {
        let edits = entry.batch.edits();
        go_through(&mut net, before + 1, edits)?;
        before += edits.len() as u32;
    }
    Ok(net)
}

/// The network of so many first entries, or of all where there are fewer.
pub fn network_of(alloc: Global, entries: &[JournalEntry], count: u32) -> Result<Net, AllocError>
    requires few { length (edits_of entries.now) ≤ edit_limit }
    ensures { IfOk result (λ net. net ≡ network_at count entries.now) }
{
    network_after(alloc, first(entries, count))
}
