//! Keys in groups, by the smallest rank of each.

ghost use Rattle.std.specs.Prelude.{◌≡◌, ◌+◌, ◌≤◌, ◌<◌, ◌^◌, ◌++◌, [], ◌∷◌, not, true, ◌==◌, IfOk};
ghost use Rattle.std.specs.Prelude.{OnOk, length, slice_index_or};
ghost use Rattle.std.specs.List.Sorted.{IsPermutation};
ghost use Rattle.viz_boundary.specs.Steps.Slots.{held};

use std::alloc::{AllocError, Global};
use viz_sheet::Ranks;

/// What stands in a slot that is free. A key may be the same number: it goes to the rest.
pub(crate) const FREE: u128 = u128::MAX;

/// How many ranks have one group. Small groups are sorted sooner, and keys of cells that stand in
/// no order are laid sooner in large ones.
const RANKS: u32 = 8;

/// Keys in slots, each in that which its group has next, and those that found it taken.
///
/// A key's group is that of its smallest rank. Where groups begin is a guess: nothing is promised
/// of it, and each key is held whether or not it is right.
#[derive(Drop)]
pub(crate) struct Slots {
    pub(crate) keys: Vec<u128>,
    pub(crate) rest: Vec<u128>,
    nexts: Vec<u32>,
}

impl Slots {
    /// Free slots for the keys of the facets of all cells, whose ranks are below a number.
    pub(crate) fn of_cells(alloc: Global, points: usize, ranks: &Ranks) -> Result<Slots, AllocError>
        ensures { IfOk result (λ s. held s ≡ []) }
    {
        let mut nexts = vec![in alloc; 0_u32; points / RANKS as usize + 1]?;
        for i in 0..ranks.len() {
            count_facets(&mut nexts, ranks.get(i));
        }
        let count = make_starts(&mut nexts);
        let keys = vec![in alloc; FREE; count as usize]?;
        let rest = Vec::new(alloc);
        Ok(Slots { keys, rest, nexts })
    }

    /// Puts a key into the next slot of its group if that is free, else to the rest.
    pub(crate) fn put(&mut self, key: u128) -> Result<(), AllocError>
        ensures { OnOk result (IsPermutation (held self.old ++ key ∷ []) (held self.new)) }
    {
        let at = next_slot(&mut self.nexts, key);
        if is_free(&self.keys, at, key) {
            self.keys[at] = key;
        } else {
            self.rest.push(key)?;
        }
        Ok(())
    }

    /// All keys, each group sorted.
    pub(crate) fn into_keys(self) -> Result<Vec<u128>, AllocError>
        ensures { IfOk result (λ keys. IsPermutation (held self) keys.items) }
    {
        let Slots {
            mut keys,
            mut rest,
            nexts,
        } = self;
        keys.retain(|key| *key != FREE);
        sort_groups(&mut keys, &nexts);
        keys.append(&mut rest)?;
        Ok(keys)
    }
}

/// Counts a cell's facets by the group of their smallest rank: that which leaves the cell's
/// smallest rank out has the second one, each other has the smallest one.
fn count_facets(counts: &mut [u32], cell: &[u32]) {
    let mut first = u32::MAX;
    let mut second = u32::MAX;
    for rank in cell {
        if *rank < first {
            second = first;
            first = *rank;
        } else if *rank < second {
            second = *rank;
        }
    }
    for rank in cell {
        add_one(counts, if *rank == first { second } else { first });
    }
}

/// Adds one to the count of a rank's group.
fn add_one(counts: &mut [u32], rank: u32) {
    if let Some(count) = counts.get_mut((rank / RANKS) as usize) {
        *count = count.wrapping_add(1);
    }
}

/// Makes counts of groups to where each begins, and gives how many there are in all.
fn make_starts(counts: &mut [u32]) -> u32 {
    let mut sum = 0_u32;
    for count in counts.iter_mut() {
        let start = sum;
        sum = sum.wrapping_add(*count);
        *count = start;
    }
    sum
}

/// The next slot of a key's group, which is one further then.
fn next_slot(nexts: &mut [u32], key: u128) -> usize {
    let rank = (key >> 96) as u32;
    let Some(next) = nexts.get_mut((rank / RANKS) as usize) else {
        return usize::MAX;
    };
    let at = *next;
    *next = at.wrapping_add(1);
    at as usize
}

/// A slot is there and free, and the key isn't what free slots have.
fn is_free(keys: &[u128], at: usize, key: u128) -> bool
    ensures within { result ≡ true → at < length keys.now }
    ensures free { result ≡ true → slice_index_or keys.now at 0 ≡ FREE }
    ensures key { result ≡ true → not (key == FREE) ≡ true }
{
    at < keys.len() && keys[at] == FREE && key != FREE
}

/// Sorts the groups that end so.
fn sort_groups(keys: &mut [u128], ends: &[u32])
    ensures { IsPermutation keys.old keys.new }
{
    let mut from = 0;
    for end in ends {
        sort_part(keys, from, *end as usize);
        from = *end as usize;
    }
}

/// Sorts the keys from one place to another one, where there are such.
fn sort_part(keys: &mut [u128], from: usize, to: usize)
    ensures { IsPermutation keys.old keys.new }
{
    if from <= to && to <= keys.len() {
        keys[from..to].sort_unstable();
    }
}
