//! The entries so far, the network that they make, and how many each actor has.

ghost use Rattle.std.specs.Prelude.{◌≡◌, ◌+◌, ◌<◌, ◌≤◌, ◌++◌, ◌∷◌, [], ℕ, nat_eq, IfSome, OnOk};
ghost use Rattle.std.specs.Prelude.{if◌then◌else◌, unwrap_or, length};
ghost use Rattle.std.specs.Ordering.{nat_cmp};
ghost use Rattle.std.specs.BTreeMap as tree;
ghost use Rattle.viz_journal.specs.Entries.{entries_by, edit_limit, is_counted, entry};
ghost use Rattle.viz_journal.specs.Steps.Kept.{edits_in, IsKept, IsClosed, Took, IsAdded};
ghost use Rattle.viz_journal.specs.Steps.Kept.{IsEntered};

use crate::entry::JournalEntry;
use std::alloc::{AllocError, Global};
use std::collections::BTreeMap;
use std::mem;
use viz_batches::Batch;
use viz_network::{ApplyStop, Edit, Net, networks_are_sound};

/// The greatest number of edits.
const LIMIT: u32 = 1_073_741_824;

/// The entries so far, the edits so far of the batch behind them, the network that all of these make,
/// and how many entries each actor has.
#[derive(Drop)]
pub struct Ledger {
    pub entries: Vec<JournalEntry>,
    /// Edits that are no entry yet.
    pub batch: Vec<Edit>,
    pub net: Net,
    /// How many edits there are, those that are no entry yet too.
    pub edits: u32,
    pub counts: BTreeMap<u32, u32>,
    /// The number of the line behind the entries.
    pub line: u32,
}

/// No entry yet.
pub(crate) fn empty_ledger(alloc: Global) -> Ledger
    ensures closed { IsClosed result }
    ensures none { result.entries.items ≡ [] }
    ensures line { result.line ≡ 2 }
{
    Ledger {
        entries: Vec::new(alloc),
        batch: Vec::new(alloc),
        net: Net::new(alloc),
        edits: 0,
        counts: BTreeMap::new(alloc),
        line: 2,
    }
}

/// Hands the entries out.
pub(crate) fn entries_in(ledger: Ledger) -> Vec<JournalEntry>
    ensures { result.items ≡ ledger.entries.items }
{
    let Ledger {
        entries,
        batch: _batch,
        net: _net,
        counts: _counts,
        ..
    } = ledger;
    entries
}

/// How many entries the actor has.
fn count_of(counts: &BTreeMap<u32, u32>, actor: u32) -> u32
    ensures { result ≡ unwrap_or (tree.get nat_cmp counts.now actor) 0 }
{
    counts.get(&actor).copied().unwrap_or(0)
}

/// Whether the count is the next one of its actor, and there is room for so many edits.
pub(crate) fn is_counted(ledger: &Ledger, actor: u32, count: u32, edits: u32) -> bool
    requires closed { IsClosed ledger.now }
    ensures { result ≡ is_counted actor count edits ledger.now.entries.items }
{
    let before = count_of(&ledger.counts, actor);
    u64::from(count) == u64::from(before) + 1
        && u64::from(ledger.edits) + u64::from(edits) <= u64::from(LIMIT)
}

/// Sets how many entries the actor has.
fn raise(counts: &mut BTreeMap<u32, u32>, actor: u32, count: u32) -> Result<(), AllocError>
    ensures { OnOk result ((q : ℕ) → unwrap_or (tree.get nat_cmp counts.new q) 0
        ≡ (if nat_eq actor q then count else unwrap_or (tree.get nat_cmp counts.old q) 0)) }
{
    match counts.insert(actor, count) {
        Ok(_) => Ok(()),
        Err(_) => Err(AllocError),
    }
}

/// Adds an edit to the batch, where the network accepts it.
pub(crate) fn add(ledger: &mut Ledger, edit: Edit) -> Result<(), ApplyStop>
    requires kept { IsKept ledger.old }
    requires few { length (edits_in ledger.old) < edit_limit }
    ensures took { Took result (edits_in ledger.old) edit }
    ensures added { OnOk result (IsAdded ledger.old edit ledger.new) }
{
    networks_are_sound();
    let at = ledger.edits + 1;
    ledger.net.apply(at, &edit)?;
    push_edit(&mut ledger.batch, edit)?;
    ledger.edits = at;
    Ok(())
}

fn push_edit(edits: &mut Vec<Edit>, edit: Edit) -> Result<(), AllocError>
    ensures { OnOk result (edits.new.items ≡ edits.old.items ++ edit ∷ []) }
{
    match edits.push(edit) {
        Ok(()) => Ok(()),
        Err(_) => Err(AllocError),
    }
}

/// The edits as a batch; none is left. `None`, where they are none or too many to be one.
fn batch_of(alloc: Global, edits: &mut Vec<Edit>) -> Option<Batch>
    ensures value { IfSome result (λ batch. batch ≡ edits.old.items) }
    ensures none { IfSome result (λ batch. edits.new.items ≡ []) }
    ensures some { IfSome result (λ batch. 1 ≤ length edits.old.items) }
{
    if edits.len() == 1 {
        return Some(Batch::one(edits.pop()?));
    }
    Batch::new(mem::replace(edits, Vec::new(alloc)))
}

/// Closes the batch: makes it an entry of so many lines, whose count is the next one of its actor.
pub(crate) fn close(
    alloc: Global,
    ledger: &mut Ledger,
    actor: u32,
    count: u32,
    lines: u32,
) -> Result<(), AllocError>
    requires kept { IsKept ledger.old }
    requires counted { count ≡ entries_by actor ledger.old.entries.items + 1 }
    requires lines { lines ≤ length ledger.old.batch.items + 1 }
    ensures { OnOk result (IsEntered ledger.old (entry actor count ledger.old.batch.items)
        (ledger.old.line + lines) ledger.new) }
{
    let Some(batch) = batch_of(alloc, &mut ledger.batch) else {
        return Err(AllocError);
    };
    raise(&mut ledger.counts, actor, count)?;
    ledger.line += lines;
    push(
        &mut ledger.entries,
        JournalEntry {
            actor,
            count,
            batch,
        },
    )
}

fn push(entries: &mut Vec<JournalEntry>, entry: JournalEntry) -> Result<(), AllocError>
    ensures { OnOk result (entries.new.items ≡ entries.old.items ++ entry ∷ []) }
{
    match entries.push(entry) {
        Ok(()) => Ok(()),
        Err(_) => Err(AllocError),
    }
}
