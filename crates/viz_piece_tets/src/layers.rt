//! Levels of layers of cubes.

ghost use Rattle.std.specs.Prelude.{◌≡◌, ◌+◌, ◌^◌, ◌<◌, ◌≤◌, ◌++◌, ◌&&◌, IfOk, OnOk, nat_le};
ghost use Rattle.std.specs.Prelude.{replicate};
ghost use Rattle.viz_extent.specs.Slabs.{first_layer, layer_count, next_layer, share_begin};
ghost use Rattle.viz_piece_layers.specs.Layers.{distance};
ghost use Rattle.viz_piece_tets.specs.Layers.{levels_between};

use std::alloc::{AllocError, Global};
use viz_extent::Extent;

/// The layers of cubes that a piece owns, counted from the lowest one of the whole: the first, and
/// the one after the last.
#[derive(Clone, Copy)]
pub struct OwnLayers {
    pub first: u32,
    pub next: u32,
    ghost order: { first ≤ next },
    ghost most: { next < 2 ^ 31 },
}

impl OwnLayers {
    /// The layers of piece `p` of `n`.
    pub fn of(whole: &Extent, p: u32, n: u32) -> OwnLayers
        requires below { p < n }
        ensures first { result.first ≡ first_layer p n whole.now }
        ensures next { result.next ≡ next_layer p n whole.now }
    {
        let [_, _, _, _, z0, z1] = whole.bounds();
        OwnLayers {
            first: begin(z1 - z0, p, n),
            next: begin(z1 - z0, p + 1, n),
        }
    }

    /// How far a layer is from these: 0 for each of them.
    pub fn distance(&self, z: u32) -> u32
        requires below { z + 1 < 2 ^ 32 }
        ensures value { result ≡ distance self.now.first self.now.next z }
    {
        self.first.saturating_sub(z) + (z + 1).saturating_sub(self.next)
    }

    /// Whether these are all layers from one on, up to another.
    pub fn are_all(&self, low: u32, high: u32) -> bool
        ensures value { result ≡ (nat_le self.now.first low && nat_le high self.now.next) }
    {
        self.first <= low && high <= self.next
    }

    /// The level of each cell in the layers from one on, up to another, which have so many each.
    pub fn levels(
        &self,
        alloc: Global,
        low: u32,
        high: u32,
        size: u64,
    ) -> Result<Vec<u32>, AllocError>
        requires order { low ≤ high }
        ensures value { IfOk result (λ v.
            v.items ≡ levels_between self.now.first self.now.next size low high) }
    {
        let count = u64::from(high - low).saturating_mul(size);
        let mut levels = Vec::with_capacity(alloc, count as usize)?;
        for z in low..high {
            push_layer(&mut levels, self.distance(z), size)?;
        }
        Ok(levels)
    }
}

/// Adds a level for each of so many cells.
fn push_layer(levels: &mut Vec<u32>, level: u32, size: u64) -> Result<(), AllocError>
    ensures { OnOk result (levels.new.items ≡ levels.old.items ++ replicate size level) }
{
    for _ in 0..size {
        levels.push(level)?;
    }
    Ok(())
}

/// Where share `p` of `n` of so many begins.
fn begin(count: u32, p: u32, n: u32) -> u32
    requires some { 0 < n }
    requires within { p ≤ n }
    ensures value { result ≡ share_begin n count p }
{
    (u64::from(p) * u64::from(count) / u64::from(n)) as u32
}
