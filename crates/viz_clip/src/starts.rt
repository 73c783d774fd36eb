//! Where keys begin in their list, by their lesser ranks.

ghost use Rattle.std.specs.Prelude.{◌≤◌, ◌^◌, length};

use crate::key_list::low;
use std::alloc::{AllocError, Global};

/// How many keys from a guess on are looked at before a search among all.
pub(crate) const LOOKED_AT: usize = 8;

/// For each group of lesser ranks the index of its first key: a guess, of which nothing is
/// promised.
#[derive(Drop)]
pub(crate) struct Starts {
    /// How many times the number of ranks of a group doubles.
    doubled: u32,
    firsts: Vec<u32>,
}

impl Starts {
    /// The starts of keys in order, in about as many groups as there are keys.
    pub(crate) fn of_keys(alloc: Global, keys: &[u64]) -> Result<Starts, AllocError>
        requires few { length keys.now ≤ 2 ^ 32 }
    {
        let most = keys.last().map_or(0, |key| low(*key));
        let doubled = doubled_for(most, keys.len());
        let mut firsts = vec![in alloc; 0; (most >> doubled.min(31)) + 1]?;
        note_firsts(&mut firsts, doubled, keys);
        Ok(Starts { doubled, firsts })
    }

    /// The index that a key may have, or one that is a little less.
    pub(crate) fn guess(&self, key: u64) -> usize {
        match self.firsts.get(group_of(key, self.doubled)) {
            Some(first) => *first as usize,
            None => 0,
        }
    }
}

/// How often a number of ranks is halved until it is no more than a number of keys.
fn doubled_for(most: usize, keys: usize) -> u32 {
    for doubled in 0..31 {
        if most >> doubled <= keys {
            return doubled;
        }
    }
    31
}

/// The group of a key.
fn group_of(key: u64, doubled: u32) -> usize {
    low(key) >> doubled.min(31)
}

/// Lays the index of each group's first key into the group's place.
fn note_firsts(firsts: &mut [u32], doubled: u32, keys: &[u64])
    requires few { length keys.now ≤ 2 ^ 32 }
{
    let mut before = usize::MAX;
    for (at, key) in keys.iter().enumerate() {
        let group = group_of(*key, doubled);
        if group != before && group < firsts.len() {
            firsts[group] = at as u32;
        }
        before = group;
    }
}
