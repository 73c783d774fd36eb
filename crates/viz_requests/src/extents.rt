//! Extents that are asked for, made of others.

ghost use Rattle.std.specs.Prelude.{◌≡◌, ◌*◌, ◌<◌, ◌↔◌, IsTrue, IsSome, IfSome};
ghost use Rattle.viz_extent.specs.Parts.{rate_of, IsAxisPart, IsRate, IsPart, grown, spread};
ghost use Rattle.viz_extent.specs.Slabs.{planes};
ghost use Rattle.viz_requests.specs.Upstream.{in_range, layers_block, mean_radius, sample_rate};

use viz_extent::Extent;

/// A number, or the nearer end of its range.
fn in_range(least: u32, most: u32, n: u32) -> u32
    ensures { result ≡ in_range least most n }
{
    least.max(most.min(n))
}

/// The rate of a sample.
pub fn sample_rate(x: u32, y: u32, z: u32) -> [u32; 3]
    ensures value { rate_of result ≡ sample_rate x y z }
    ensures valid { IsRate (rate_of result) }
{
    [
        in_range(1, 1024, x),
        in_range(1, 1024, y),
        in_range(1, 1024, z),
    ]
}

// Whether the multiples of an axis lie on another.
fn has_multiples(lower: u32, upper: u32, first: u32, last: u32, rate: u32) -> bool
    ensures { IsTrue result ↔ IsAxisPart lower upper (first * rate) (last * rate) }
{
    let rate = u64::from(rate);
    u64::from(lower) <= u64::from(first) * rate && u64::from(last) * rate <= u64::from(upper)
}

// Whether the points that are sampled lie in the whole.
fn has_spread(rate: &[u32; 3], whole: &Extent, block: &Extent) -> bool
    ensures { IsTrue result ↔ IsPart whole.now (spread (rate_of rate.now) block.now) }
{
    let [a0, a1, b0, b1, c0, c1] = whole.bounds();
    let [x0, x1, y0, y1, z0, z1] = block.bounds();
    has_multiples(a0, a1, x0, x1, rate[0])
        && has_multiples(b0, b1, y0, y1, rate[1])
        && has_multiples(c0, c1, z0, z1, rate[2])
}

/// The points of the whole of which the block is the sample, if it has them.
pub fn spread_block(rate: [u32; 3], whole: &Extent, block: &Extent) -> Option<Extent>
    requires rate { IsRate (rate_of rate) }
    ensures value { IfSome result (λ e. e ≡ spread (rate_of rate) block.now) }
    ensures some { IsSome result ↔ IsPart whole.now (spread (rate_of rate) block.now) }
{
    let _whole = whole.bounds();
    let _block = block.bounds();
    if has_spread(&rate, whole, block) {
        Some(block.spread(rate))
    } else {
        None
    }
}

/// The points of the whole of which the means of the block are made, if it has the block.
pub fn grown_block(radius: u32, whole: &Extent, block: &Extent) -> Option<Extent>
    ensures value { IfSome result (λ e. e ≡ grown (mean_radius radius) whole.now block.now) }
    ensures within { IfSome result (IsPart whole.now) }
    ensures some { IsSome result ↔ IsPart whole.now block.now }
{
    let _block = block.bounds();
    if whole.contains(block) {
        Some(block.grow(in_range(0, 8, radius), whole))
    } else {
        None
    }
}

// The lowest plane.
fn lowest_plane(whole: &Extent) -> Extent
    ensures value { result ≡ planes 0 0 whole.now }
    ensures within { IsPart whole.now result }
{
    let [x0, x1, y0, y1, z0, _] = whole.bounds();
    match Extent::new([x0, x1, y0, y1, z0, z0]) {
        Some(plane) => plane,
        None => *whole,
    }
}

/// The planes of the layers of a piece and of its ghost levels, or the lowest plane.
pub fn layers_block(p: u32, n: u32, ghosts: u32, whole: &Extent) -> Extent
    requires below { p < n }
    ensures value { result ≡ layers_block p n ghosts whole.now }
    ensures within { IsPart whole.now result }
{
    match whole.layers(p, n, ghosts) {
        Some(layers) => layers,
        None => lowest_plane(whole),
    }
}
