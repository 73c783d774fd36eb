//! The history with its network and the kept parts.

ghost use Rattle.std.specs.Prelude.{◌≡◌, ◌+◌, ◌<◌, ◌≤◌, length, map, IfOk, OnOk};
ghost use Rattle.std.specs.List.{IsDistinct};
ghost use Rattle.viz_cache.specs.Keys.{same_key};
ghost use Rattle.viz_kept.specs.True.{AreTrueIn, AreTrueOf};
ghost use Rattle.viz_entries.specs.History.{edits_of, network_of, next, IsLegal};
ghost use Rattle.viz_history.specs.Machine.{IsFirst, IsPinOf, Stays, Replies, Publishes};
ghost use Rattle.viz_batches.specs.AppliesAll.{MayTakeMemoryAll};

use crate::answer::EditAnswer;
use crate::pinned::Pinned;
use crate::publishing::{Kept, bring_all, give_overtaken_up, take_in};
use std::alloc::{AllocError, Global};
use std::marker::Model;
use viz_base::Items;
use viz_batches::{Batch, BatchStop, apply_all};
use viz_cache::Cache;
use viz_entries::Entry;
use viz_kept::true_of_longer;
use viz_network::Net;
use viz_parts::{Key, Stored};
use viz_turn::Story;

/// A legal history with its network, and kept parts that are true of it. Contracts see the history,
/// its limit, and the kept parts, the most recently used first.
#[derive(Drop)]
pub struct Core {
    history: Vec<Entry>,
    // The network of the history, and the number of its edits.
    net: Net,
    edits: u32,
    limit: u32,
    cache: Cache,
}

impl Model for Core {
    ghost use Rattle.std.specs.Prelude.{◌-◌};
    ghost use Rattle.std.specs.Vec.{vec_capacity, vec_len};
    ghost use Rattle.viz_history.specs.Machine.{State};
    ghost use Rattle.viz_history.specs.Kept.{IsKept};

    ghost Value = { State };

    ghost view = { λ core. record {
      history = core.history.items;
      limit = core.limit;
      capacity = core.cache.capacity;
      cache = core.cache.entries;
      spare = vec_capacity core.history - vec_len core.history;
    } };

    ghost invariant = { λ core. IsKept core.history.items core.edits core.limit core.net
        core.cache.entries };
}

impl Story for Core {
    ghost use Rattle.viz_entries.specs.History.{by_of};

    type Entry = Entry;

    ghost tale = { λ core. core.history };

    ghost by = { by_of };

    ghost mark = { λ core. core.limit };
}

impl Core {
    /// A core without entries, whose history may have so many, and which may keep so many parts.
    /// A history of so many batches has positions of 32 bits.
    pub fn new(alloc: Global, limit: u32, capacity: u32) -> Result<Core, AllocError>
        requires limit { limit ≤ 67108863 }
        requires capacity { 0 < capacity }
        ensures ok { IfOk result (λ core. IsFirst limit capacity core) }
    {
        Ok(Core {
            history: Vec::new(alloc),
            net: Net::new(alloc),
            edits: 0,
            limit,
            cache: Cache::new(alloc, capacity)?,
        })
    }

    /// Makes room for one entry, so that a batch that takes no memory isn't refused for want of it.
    pub fn reserve(&mut self) -> Result<(), AllocError>
        ensures ok { OnOk result (1 ≤ self.new.spare) }
        ensures same { Stays self.old self.new }
    {
        self.history.reserve(1)
    }

    /// Makes the batch as the next one of the pass, or says why not. Full comes before the refusals
    /// of the network. Where there is room for an entry, a batch of Sets, and one edit that is no
    /// Add and no Load, can't meet want of memory.
    pub fn edit(&mut self, pass: u64, count: u32, batch: Batch) -> EditAnswer
        requires next { count ≡ next pass self.old.history }
        ensures replies { Replies pass count batch self.old result self.new }
        ensures memory { result ≡ EditAnswer.Memory → 1 ≤ self.old.spare
            → MayTakeMemoryAll batch }
    {
        let at = self.history.len() as u32;
        if self.limit <= at {
            return EditAnswer::Full { at: self.limit };
        }
        // Room first, so that nothing has to be undone.
        if self.history.reserve(1).is_err() {
            return EditAnswer::Memory;
        }
        match apply_all(&mut self.net, self.edits + 1, &batch) {
            Ok(()) => {
                self.edits += batch.edits().len() as u32;
                self.history.push_reserved(Entry { pass, count, batch });
                EditAnswer::Done { at: at + 1 }
            }
            Err(BatchStop::Refused { index, refusal }) => EditAnswer::Refused {
                index,
                refusal,
                at,
            },
            Err(BatchStop::Memory) => EditAnswer::Memory,
        }
    }

    /// The network of the history.
    pub fn net(&self) -> &Net
        ensures value { result.now ≡ network_of self.now.history }
    {
        &self.net
    }

    /// A copy of the network, with the number of entries that it is of, and all kept parts. The
    /// bytes of files and the parts aren't copied. `Err` is want of memory.
    pub fn pin(&self, alloc: Global) -> Result<Pinned, AllocError>
        ensures ok { IfOk result (λ pinned. IsPinOf self.now pinned) }
        ensures true_of { IfOk result (λ pinned. AreTrueOf
            (edits_of self.now.history) pinned.entries) }
        ensures true_in { IfOk result (λ pinned. AreTrueIn pinned.net pinned.entries) }
        ensures distinct { IfOk result (λ pinned. IsDistinct same_key
            (map (λ e. e.key) pinned.entries)) }
        ensures within { IfOk result (λ pinned. length pinned.entries ≤ self.now.capacity) }
    {
        true_of_longer();
        Ok(Pinned {
            at: self.history.len() as u32,
            net: self.net.copy()?,
            entries: Items::new(self.cache.entries(alloc)?),
        })
    }

    /// Takes made parts in: brings the parts that were used to the front, in their order, and then
    /// puts the made ones in front, in theirs. A part whose node is gone or was stamped since is
    /// stale, and isn't kept; one that memory has no room for is dropped. Parts are shared, and
    /// aren't copied. The part of each entry that is stale by now is given up, so that its memory
    /// goes; the entry keeps its place.
    pub fn publish(&mut self, used: &[Key], made: &[Stored]) -> Kept
        requires made { AreTrueOf (edits_of self.old.history) made.now }
        ensures publishes { Publishes used.now made.now self.old result self.new }
        ensures count { result.kept + result.stale + result.unkept ≡ length made.now }
    {
        bring_all(&mut self.cache, used);
        // One sweep of the network serves all parts.
        let stamps = self.net.stamps();
        let kept = take_in(&mut self.cache, &stamps, made);
        give_overtaken_up(&mut self.cache, &stamps, self.edits);
        kept
    }

    /// The number of entries.
    pub fn front(&self) -> u32
        ensures value { result ≡ length self.now.history }
        ensures within { result ≤ self.now.limit }
        ensures fits { self.now.limit ≤ 67108863 }
    {
        self.history.len() as u32
    }

    /// Hands the history out.
    pub fn history(self) -> Vec<Entry>
        ensures value { result.items ≡ self.history }
        ensures legal { IsLegal self.history }
        ensures within { length self.history ≤ self.limit }
    {
        let Core {
            history,
            net: _,
            edits: _,
            limit: _,
            cache: _,
        } = self;
        history
    }
}
