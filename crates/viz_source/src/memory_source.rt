//! A source in memory, with pieces of listed sizes and pulls that fail by a list.

ghost use Rattle.std.specs.Prelude.{◌≡◌, ◌≤◌, ◌<◌, ◌^◌, ◌↔◌, true, Contains, length, take, drop};
ghost use Rattle.std.specs.Prelude.{IsErr, IfOk};
ghost use Rattle.viz_base.specs.Faults.{one_more};
ghost use Rattle.viz_source.specs.MemorySource.{next_size, next_piece, after_pull};

use crate::limits::PIECE;
use crate::source::Source;
use std::marker::Model;
use viz_base::{Bytes, Failed};

/// A source that keeps its bytes. It gives pieces of the listed sizes, each brought within 1 and
/// 4,096, and then pieces of 4,096. The listed pulls, counted from 1 over all, fail and use up no
/// size; each raises the count by one.
#[derive(Debug, Drop)]
pub struct MemorySource {
    bytes: Bytes,
    place: usize,
    cuts: Vec<u32>,
    given: usize,
    failing: Vec<u64>,
    pulls: u64,
    faults: u64,
}

impl Model for MemorySource {
    ghost use Rattle.std.specs.Prelude.{◌≤◌, length, drop};
    ghost use Rattle.viz_source.specs.MemorySource.{Pieces};

    ghost Value = { Pieces };

    ghost view = { λ s. record {
      left = drop s.place s.bytes;
      cuts = drop s.given s.cuts.items;
      failing = s.failing.items;
      pulls = s.pulls;
      faults = s.faults;
    } };

    ghost invariant = { λ s. (s.place ≤ length s.bytes) × (s.given ≤ length s.cuts.items) };
}

// The greatest size of the next piece.
fn next_size(cuts: &[u32]) -> usize
    ensures { result ≡ next_size cuts.now }
{
    match cuts {
        [] => PIECE,
        [cut, ..] => (*cut as usize).max(1).min(PIECE),
    }
}

// Puts as many bytes at the front of the piece as the size says, if there are so many.
fn put_front(left: &[u8], size: usize, piece: &mut [u8; PIECE]) -> usize
    requires { size ≤ PIECE }
    ensures len { result ≡ length (take size left.now) }
    ensures bytes { take result piece.new ≡ take size left.now }
{
    let n = size.min(left.len());
    piece[..n].copy_from_slice(&left[..n]);
    n
}

// How many sizes are given with one more, if there is one.
fn one_given(cuts: &[u32], given: usize) -> usize
    requires { given ≤ length cuts.now }
    ensures within { result ≤ length cuts.now }
    ensures rest { drop result cuts.now ≡ drop 1 (drop given cuts.now) }
{
    (given + 1).min(cuts.len())
}

impl MemorySource {
    /// A source of these bytes, with the sizes of its first pieces and the pulls that are to fail.
    pub fn new(bytes: Bytes, cuts: Vec<u32>, failing: Vec<u64>) -> MemorySource
        ensures left { ⟦<MemorySource as Source>⟧.left result ≡ bytes }
        ensures faults { ⟦<MemorySource as Source>⟧.faults result ≡ 0 }
        ensures cuts { result.cuts ≡ cuts.items }
        ensures failing { result.failing ≡ failing.items }
        ensures pulls { result.pulls ≡ 0 }
    {
        MemorySource {
            bytes,
            place: 0,
            cuts,
            given: 0,
            failing,
            pulls: 0,
            faults: 0,
        }
    }
}

impl Source for MemorySource {
    ghost tells_bytes = { true };

    ghost left = { λ source. source.left };

    ghost faults = { λ source. source.faults };

    fn pull(&mut self, piece: &mut [u8; PIECE]) -> Result<u32, Failed>
        ensures fails { IsErr result ↔ Contains self.old.failing (one_more self.old.pulls) }
        ensures len { IfOk result (λ n. n ≡ length (next_piece self.old)) }
        ensures piece { IfOk result (λ n. take n piece.new ≡ next_piece self.old) }
        ensures after { self.new ≡ after_pull self.old result }
        ensures later { self.old.faults ≤ self.new.faults }
        ensures counted { self.new.faults < 2 ^ 64 }
    {
        let faults = self.faults;
        let number = self.pulls.saturating_add(1);
        self.pulls = number;
        if self.failing.contains(&number) {
            self.faults = faults.saturating_add(1);
            return Err(Failed);
        }
        let size = next_size(&self.cuts[self.given..]);
        let n = put_front(&self.bytes.list()[self.place..], size, piece);
        self.place += n;
        self.given = one_given(&self.cuts, self.given);
        Ok(n as u32)
    }
}
