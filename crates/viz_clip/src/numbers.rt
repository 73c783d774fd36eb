//! The numbers of vertices: corners first, in the order of their ranks, and then cuts.
ghost use Rattle.std.specs.Prelude.{◌≡◌, ◌+◌, ◌<◌, ◌≤◌, ◌^◌, ◌++◌, [], ◌∷◌, Contains, IfOk, OnOk};
ghost use Rattle.std.specs.Prelude.{length, map, slice_index_or, if◌then◌else◌};
ghost use Rattle.std.specs.List.{range_with_len};
ghost use Rattle.std.specs.List.Sorted.{IsStrictlySortedBy};
ghost use Rattle.std.specs.Ordering.{nat_cmp};
ghost use Rattle.viz_cells.specs.Steps.Keys.{key_of};
ghost use Rattle.viz_sheet.specs.Kept.{kept_rank};
ghost use Rattle.viz_clip.specs.Steps.Numbers.{corner_number, cut_number, ranks_inside};

use crate::key_list::{is_at, key};
use crate::starts::{LOOKED_AT, Starts};
use std::alloc::{AllocError, Global};

/// The number of each inside corner by its rank, how many there are, and the keys of the cuts that
/// follow.
#[derive(Drop)]
pub(crate) struct Numbers {
    pub corners: Vec<u32>,
    pub count: u32,
    pub keys: Vec<u64>,
    pub starts: Starts,
}

/// How many inside corners stand before each.
#[tactic(auto, using(viz_sheet::proofs::KeptLemmas::more))]
fn corner_numbers(alloc: Global, inside: &[bool]) -> Result<Vec<u32>, AllocError>
    requires few { length inside.now < 2 ^ 32 }
    ensures { IfOk result (λ v.
        v.items ≡ map (kept_rank inside.now) (range_with_len 0 (length inside.now))) }
{
    let mut numbers = Vec::with_capacity(alloc, inside.len())?;
    let mut count = 0;
    for is_inside in inside {
        numbers.push(count)?;
        if *is_inside {
            count += 1;
        }
    }
    Ok(numbers)
}

/// The ranks of inside corners.
pub(crate) fn inside_ranks(alloc: Global, inside: &[bool]) -> Result<Vec<u32>, AllocError>
    requires few { length inside.now < 2 ^ 32 }
    ensures { IfOk result (λ v. v.items ≡ ranks_inside inside.now) }
{
    let mut ranks = Vec::new(alloc);
    for rank in 0..inside.len() {
        push_if(&mut ranks, rank as u32, inside[rank])?;
    }
    Ok(ranks)
}

/// Adds a rank if it is that of an inside corner.
fn push_if(ranks: &mut Vec<u32>, rank: u32, is_inside: bool) -> Result<(), AllocError>
    ensures { OnOk result (ranks.new.items
        ≡ ranks.old.items ++ (if is_inside then rank ∷ [] else [])) }
{
    if is_inside {
        ranks.push(rank)?;
    }
    Ok(())
}

impl Numbers {
    /// The numbers of so many inside corners, and of the cuts behind them.
    pub(crate) fn new(
        alloc: Global,
        inside: &[bool],
        count: u32,
        keys: Vec<u64>,
    ) -> Result<Numbers, AllocError>
        requires few { length inside.now < 2 ^ 32 }
        requires few_keys { length keys.items ≤ 2 ^ 32 }
        ensures corners { IfOk result (λ n. n.corners.items
            ≡ map (kept_rank inside.now) (range_with_len 0 (length inside.now))) }
        ensures count { IfOk result (λ n. n.count ≡ count) }
        ensures keys { IfOk result (λ n. n.keys.items ≡ keys.items) }
    {
        let corners = corner_numbers(alloc, inside)?;
        let starts = Starts::of_keys(alloc, &keys)?;
        Ok(Numbers {
            corners,
            count,
            keys,
            starts,
        })
    }

    /// The number of the corner of a rank.
    #[tactic(auto, unfolding(crate::specs::Steps::Numbers::corner_number))]
    pub(crate) fn corner(&self, rank: u32) -> u32
        requires { rank < length self.now.corners.items }
        ensures value { result ≡ corner_number self.now rank }
    {
        self.corners[rank as usize]
    }

    /// The number of the cut between two ranks.
    pub(crate) fn cut(&self, a: u32, b: u32) -> u32
        requires ascending { IsStrictlySortedBy nat_cmp self.now.keys.items }
        requires few { self.now.count + length self.now.keys.items < 2 ^ 32 }
        requires has { Contains self.now.keys.items (key_of a b) }
        ensures value { result ≡ cut_number self.now a b }
    {
        self.count + rank(&self.keys, &self.starts, key(a, b))
    }
}

/// The rank of a key: its index, which is looked for where the key may stand, and then among all.
fn rank(keys: &[u64], starts: &Starts, key: u64) -> u32
    requires ascending { IsStrictlySortedBy nat_cmp keys.now }
    requires few { length keys.now ≤ 2 ^ 32 }
    requires has { Contains keys.now key }
    ensures below { result < length keys.now }
    ensures value { slice_index_or keys.now result 0 ≡ key }
{
    let start = starts.guess(key);
    for at in start..start.saturating_add(LOOKED_AT) {
        if is_at(keys, at, key) {
            return at as u32;
        }
    }
    searched(keys, key)
}

/// The rank of a key by a search.
fn searched(keys: &[u64], key: u64) -> u32
    requires ascending { IsStrictlySortedBy nat_cmp keys.now }
    requires few { length keys.now ≤ 2 ^ 32 }
    requires has { Contains keys.now key }
    ensures below { result < length keys.now }
    ensures value { slice_index_or keys.now result 0 ≡ key }
{
    match keys.binary_search(&key) {
        Ok(index) => index as u32,
        Err(_) => 0,
    }
}
