//! The cache.

ghost use Rattle.std.specs.Prelude.{◌≡◌, ◌≤◌, [], IfOk, OnErr, OnOk, length, map};
ghost use Rattle.std.specs.List.{IsDistinct};
ghost use Rattle.viz_cache.specs.Keys.{same_key};
ghost use Rattle.viz_cache.specs.Cache.{brought_first, has_key, last_key, with_item, GivesUp};
ghost use Rattle.viz_cache.specs.Steps.Pairs.{shown as shown_part};

use lru::LruCache;
use std::alloc::{AllocError, Global};
use std::marker::Model;
use std::num::NonZeroUsize;
use viz_base::Shared;
use viz_parts::{Key, Part, Stored};

/// Parts under their keys, so many at most. A new one in a full cache drops the entry that was used
/// least recently. A part can be given up: its entry stays where it is, with an empty part.
///
/// Contracts see the list of entries, the most recently used first, and how many there may be.
#[derive(Drop)]
pub struct Cache {
    // Without a part where it was given up.
    held: LruCache<Key, Option<Shared<Part>>>,
    // What stands for each part that was given up.
    empty: Shared<Part>,
}

impl Model for Cache {
    ghost use Rattle.viz_cache.specs.Cache.{CacheData, IsEmptyPart};
    ghost use Rattle.viz_cache.specs.Steps.Pairs.{data_of};

    ghost Value = { CacheData };

    ghost view = { λ cache. data_of cache.empty cache.held };

    ghost invariant = { λ cache. IsEmptyPart cache.empty };
}

// The part, or the empty one in place of a part that was given up.
fn shown(empty: &Shared<Part>, part: &Option<Shared<Part>>) -> Result<Shared<Part>, AllocError>
    ensures { IfOk result (λ shared. shared ≡ shown_part empty.now part.now) }
{
    match part {
        Some(part) => part.copy(),
        None => empty.copy(),
    }
}

impl Cache {
    /// A cache without entries, with room for so many keys. `Err` is want of memory.
    pub fn new(alloc: Global, capacity: u32) -> Result<Cache, AllocError>
        requires some { 1 ≤ capacity }
        ensures ok { IfOk result (λ cache. cache ≡ record { entries = []; capacity = capacity }) }
    {
        match NonZeroUsize::new(capacity as usize) {
            Some(capacity) => {
                let held = LruCache::new(alloc, capacity)?;
                let empty = Shared::new(alloc, Part::Mesh(Vec::new(alloc)))?;
                Ok(Cache { held, empty })
            }
            None => Err(AllocError),
        }
    }

    /// Whether an entry has this key, which then goes first.
    pub fn find(&mut self, key: &Key) -> bool
        ensures found { result ≡ has_key key.now self.old.entries }
        ensures entries { self.new.entries ≡ brought_first key.now self.old.entries }
        ensures capacity { self.new.capacity ≡ self.old.capacity }
    {
        self.held.promote(key)
    }

    /// Puts an item in, which goes first. The part is shared, and isn't copied. `Err` is want of
    /// memory, and leaves all as it was.
    pub fn put(&mut self, item: &Stored) -> Result<(), AllocError>
        ensures ok { OnOk result
            (self.new.entries ≡ with_item self.old.capacity item.now self.old.entries) }
        ensures err { OnErr result (self.new ≡ self.old) }
        ensures capacity { self.new.capacity ≡ self.old.capacity }
    {
        let part = item.part.copy()?;
        match self.held.put(item.key, Some(part)) {
            Ok(_) => Ok(()),
            Err(_) => Err(AllocError),
        }
    }

    /// How many entries there are.
    pub fn len(&self) -> usize
        ensures value { result ≡ length self.now.entries }
    {
        self.held.len()
    }

    /// The key of the entry that was used least recently.
    pub fn last(&self) -> Option<Key>
        ensures key { result ≡ last_key self.now.entries }
        ensures distinct { IsDistinct same_key (map (λ e. e.key) self.now.entries) }
    {
        if self.held.len() == 0 {
            return None;
        }
        match self.held.peek_lru() {
            Some((key, _)) => Some(*key),
            None => None,
        }
    }

    /// Gives the part of a key up, so that its memory goes with its last owner. The entry stays
    /// where it is, with an empty part.
    pub fn give_up(&mut self, key: &Key)
        ensures entries { GivesUp key.now self.old.entries self.new.entries }
        ensures capacity { self.new.capacity ≡ self.old.capacity }
    {
        if let Some(part) = self.held.peek_mut(key) {
            *part = None;
        }
    }

    /// The entries, the most recently used first. Their parts are shared, and aren't copied. `Err`
    /// is want of memory.
    pub fn entries(&self, alloc: Global) -> Result<Vec<Stored>, AllocError>
        ensures ok { IfOk result (λ all. all.items ≡ self.now.entries) }
        ensures distinct { IfOk result (λ all. IsDistinct same_key (map (λ e. e.key) all.items)) }
        ensures within { IfOk result (λ all. length all.items ≤ self.now.capacity) }
    {
        let empty = &self.empty;
        let mut all = Vec::with_capacity(alloc, self.held.len())?;
        for (key, part) in self.held.iter() {
            let part = shown(empty, part)?;
            all.push(Stored { key: *key, part })?;
        }
        Ok(all)
    }
}
