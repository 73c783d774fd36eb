//! What becomes of published parts, and of those that they overtake.

ghost use Rattle.std.specs.Prelude.{◌≡◌, ◌+◌, ◌-◌, ◌^◌, ◌<◌, List, [], ◌∷◌, ◌++◌, length};
ghost use Rattle.viz_parts.specs.declared.stored.Stored.{Stored as Item};
ghost use Rattle.viz_history.specs.Publishing.{all_brought, is_lost, is_overtaken};
ghost use Rattle.viz_history.specs.Publishing.{GivesOvertakenUp, TakesIn};
ghost use Rattle.viz_history.specs.Steps.Walk.{GivesUpIf, PassesOver};

use viz_cache::Cache;
use viz_network::Stamps;
use viz_parts::{Key, Stored};

/// How many made parts were kept, how many were stale, and how many memory had no room for.
#[derive(Clone, Copy, PartialEq, Eq, Debug)]
pub struct Kept {
    pub kept: u64,
    pub stale: u64,
    pub unkept: u64,
}

/// Brings the entries of the keys to the front, one after the other.
pub fn bring_all(cache: &mut Cache, used: &[Key])
    ensures entries { cache.new.entries ≡ all_brought used.now cache.old.entries }
    ensures capacity { cache.new.capacity ≡ cache.old.capacity }
{
    for key in used {
        cache.find(key);
    }
}

// Whether the node of a key is gone, or has another stamp.
fn finds_lost(stamps: &Stamps<'_>, key: &Key) -> bool
    ensures { result ≡ is_lost stamps.now key.now }
{
    stamps.of(key.node) != Some(key.stamp)
}

// Takes a part in, and counts it.
fn take_one(cache: &mut Cache, stamps: &Stamps<'_>, item: &Stored, count: Kept) -> Kept
    requires few { count.kept + count.stale + count.unkept < 2 ^ 64 - 1 }
    ensures takes { (before : List Item) (entries : List Item)
        → TakesIn stamps.now cache.old.capacity before entries count cache.old.entries
        → TakesIn stamps.now cache.old.capacity (before ++ item.now ∷ []) entries result
        cache.new.entries }
    ensures capacity { cache.new.capacity ≡ cache.old.capacity }
    ensures count { result.kept + result.stale + result.unkept
        ≡ count.kept + count.stale + count.unkept + 1 }
{
    if finds_lost(stamps, &item.key) {
        return Kept {
            stale: count.stale + 1,
            ..count
        };
    }
    match cache.put(item) {
        Ok(()) => Kept {
            kept: count.kept + 1,
            ..count
        },
        Err(_) => Kept {
            unkept: count.unkept + 1,
            ..count
        },
    }
}

/// Takes the parts in, one after the other: a stale one is dropped, and any other goes first.
pub fn take_in(cache: &mut Cache, stamps: &Stamps<'_>, made: &[Stored]) -> Kept
    ensures takes { TakesIn stamps.now cache.old.capacity made.now cache.old.entries result
        cache.new.entries }
    ensures capacity { cache.new.capacity ≡ cache.old.capacity }
    ensures count { result.kept + result.stale + result.unkept ≡ length made.now }
{
    let mut count = Kept {
        kept: 0,
        stale: 0,
        unkept: 0,
    };
    for item in made {
        count = take_one(cache, stamps, item, count);
    }
    count
}

// Gives the part of a key up if it is overtaken. No stamp is past the history; that it is tested
// spares an invariant.
fn give_up_one(cache: &mut Cache, stamps: &Stamps<'_>, at: u32, key: &Key)
    ensures entries { GivesUpIf (is_overtaken stamps.now at key.now) key.now cache.old.entries
        cache.new.entries }
    ensures capacity { cache.new.capacity ≡ cache.old.capacity }
{
    if finds_lost(stamps, key) && key.stamp <= at {
        cache.give_up(key);
    }
}

// Brings the last entry to the front, without its part if it is overtaken.
fn pass_over(cache: &mut Cache, stamps: &Stamps<'_>, at: u32)
    ensures last { (front : List Item) (last : Item) → cache.old.entries ≡ front ++ last ∷ []
        → PassesOver stamps.now at front last cache.new.entries }
    ensures capacity { cache.new.capacity ≡ cache.old.capacity }
{
    if let Some(key) = cache.last() {
        give_up_one(cache, stamps, at, &key);
        cache.find(&key);
    }
}

/// Gives the parts of overtaken entries up. Each entry goes from the last place to the first in its
/// turn, so that in the end all stand where they stood.
pub fn give_overtaken_up(cache: &mut Cache, stamps: &Stamps<'_>, at: u32)
    ensures entries { GivesOvertakenUp stamps.now at cache.old.entries cache.new.entries }
    ensures capacity { cache.new.capacity ≡ cache.old.capacity }
{
    for _ in 0..cache.len() {
        pass_over(cache, stamps, at);
    }
}
