//! Parts of an extent across z: slabs of planes, and layers of cubes.

ghost use Rattle.std.specs.Prelude.{◌≡◌, ◌+◌, ◌<◌, ◌≤◌, IfSome};
ghost use Rattle.viz_extent.specs.Extent.{IsExtent};
ghost use Rattle.viz_extent.specs.Parts.{IsPart};
ghost use Rattle.viz_extent.specs.Slabs.{share_begin, slab_of, layers_of, SlabsAreAll};
ghost use Rattle.viz_extent.specs.Slabs.{LayersAreAll};

use crate::bounds::Extent;

impl Extent {
    /// The planes of slab `p` of `n`, counted from 0: all planes across z, shared out in turn.
    ///
    /// `None` exactly where the slab has no plane, as some have where there are fewer than `n`.
    pub fn slab(&self, p: u32, n: u32) -> Option<Extent>
        requires below { p < n }
        ensures value { result ≡ slab_of p n self.now }
        ensures part { IfSome result (IsPart self.now) }
        ensures valid { IfSome result IsExtent }
    {
        let [x0, x1, y0, y1, z0, z1] = self.bounds();
        let (first, next) = share(z1 - z0 + 1, p, n);
        if first >= next {
            return None;
        }
        Some(Extent::of([x0, x1, y0, y1, z0 + first, z0 + (next - 1)]))
    }

    /// The planes that the layers of piece `p` of `n` touch, counted from 0: all layers of cubes
    /// between two planes across z, shared out in turn, and `ghosts` layers more at both sides of
    /// its own, as far as this extent reaches.
    ///
    /// `None` exactly where the piece has no layer, whatever `ghosts` is.
    pub fn layers(&self, p: u32, n: u32, ghosts: u32) -> Option<Extent>
        requires below { p < n }
        ensures value { result ≡ layers_of p n ghosts self.now }
        ensures part { IfSome result (IsPart self.now) }
        ensures valid { IfSome result IsExtent }
    {
        let [x0, x1, y0, y1, z0, z1] = self.bounds();
        let (first, next) = share(z1 - z0, p, n);
        if first >= next {
            return None;
        }
        Some(Extent::of([x0, x1, y0, y1, z0 + first, z0 + next]).grow(ghosts, self))
    }
}

/// Where share `p` of `n` of so many begins, and where the next one does.
fn share(count: u32, p: u32, n: u32) -> (u32, u32)
    requires below { p < n }
    ensures first { result.0 ≡ share_begin n count p }
    ensures next { result.1 ≡ share_begin n count (p + 1) }
    ensures order { result.0 ≤ result.1 }
    ensures most { result.1 ≤ count }
{
    (begin(count, p, n), begin(count, p + 1, n))
}

/// Where share `p` of `n` of so many begins.
fn begin(count: u32, p: u32, n: u32) -> u32
    requires some { 0 < n }
    requires within { p ≤ n }
    ensures value { result ≡ share_begin n count p }
    ensures most { result ≤ count }
{
    (u64::from(p) * u64::from(count) / u64::from(n)) as u32
}

/// Slabs share out all planes, and own layers all layers: each once, in order.
pub fn shares_are_the_whole()
    ensures planes { SlabsAreAll }
    ensures layers { LayersAreAll }
{}
