//! The planes of an image that a piece asks for.

ghost use Rattle.std.specs.Prelude.{◌≡◌, ◌<◌, ◌≤◌, ◌^◌};
ghost use Rattle.viz_extent.specs.Extent.{IsExtent};
ghost use Rattle.viz_extent.specs.Parts.{IsPart};
ghost use Rattle.viz_piece_layers.specs.Pieces.{leaf_shift};
ghost use Rattle.viz_piece_tets.specs.Asked.{asked, or_lowest};

use viz_extent::Extent;

/// The planes that piece `p` of `n` of an image asks for: those that its layers of cubes and
/// `ghosts` layers more at both sides touch. A piece without layers asks for the lowest plane.
pub fn asked(whole: &Extent, p: u32, n: u32, ghosts: u32) -> Extent
    requires below { p < n }
    ensures value { result ≡ asked p n ghosts whole.now }
    ensures part { IsPart whole.now result }
    ensures valid { IsExtent result }
{
    match whole.layers(p, n, ghosts) {
        Some(planes) => planes,
        None => lowest(whole),
    }
}

/// The lowest plane.
fn lowest(whole: &Extent) -> Extent
    ensures value { result ≡ or_lowest whole.now None }
    ensures part { IsPart whole.now result }
    ensures valid { IsExtent result }
{
    let [x0, x1, y0, y1, z0, _] = whole.bounds();
    match whole.clip([x0, x1, y0, y1, z0, z0]) {
        Some(plane) => plane,
        None => unreachable!(),
    }
}

/// How much greater a leaf's number is in the whole than in a block of some of its planes.
pub fn leaf_base(whole: &Extent, block: &Extent) -> u32
    requires part { IsPart whole.now block.now }
    ensures value { result ≡ leaf_shift whole.now block.now }
    ensures most { result < 2 ^ 31 }
{
    let [x0, _, y0, _, _, _] = whole.bounds();
    let [_, _, _, _, z0, _] = block.bounds();
    // The number of the first point of the block's lowest plane.
    let first = whole.index_of(x0, y0, z0);
    let _count = whole.count();
    first as u32
}
