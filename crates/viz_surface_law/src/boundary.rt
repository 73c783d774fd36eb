//! Whether the facet of a side lies on the boundary of a grid.

ghost use Rattle.std.specs.Prelude.{◌≡◌, ◌==◌, ◌||◌, All, length};
ghost use Rattle.viz_extent.specs.Extent.{count_of};
ghost use Rattle.viz_surface_law.specs.Closed.{on_boundary};
ghost use Rattle.viz_surface_law.specs.Sides.{side};
ghost use Rattle.viz_surface_law.specs.Steps.Ranked.{HasRanks, is_at_border};
ghost use Rattle.viz_surface_law.specs.Surfaces.{IsEdgeName, edge_named};

use crate::facets::facet_on_boundary;
use viz_extent::Extent;
use viz_sheet::Sheet;

/// Whether a side by its number, which is that of its two ranks, lies on the boundary.
pub(crate) fn is_at_border(sheet: &Sheet, whole: &Extent, side: u64) -> bool
    requires names { All (IsEdgeName (count_of whole.now)) sheet.now.names }
    requires ranks { HasRanks (length sheet.now.names) side }
    ensures value { result ≡ is_at_border whole.now sheet.now.names side }
{
    let tail = sheet.name((side / 0x8000_0000) as usize);
    let head = sheet.name((side % 0x8000_0000) as usize);
    lies_on_boundary(whole, tail, head)
}

/// Whether two names share a leaf, and the facet of their three leaves lies on the boundary.
fn lies_on_boundary(whole: &Extent, tail: &[u32], head: &[u32]) -> bool
    requires tail { IsEdgeName (count_of whole.now) tail.now }
    requires head { IsEdgeName (count_of whole.now) head.now }
    ensures value { result ≡ on_boundary whole.now
        (side (edge_named tail.now) (edge_named head.now)) }
{
    let (a, b, c, d) = (tail[0], tail[1], head[0], head[1]);
    if is_one_of(c, a, b) {
        facet_on_boundary(whole, [u64::from(a), u64::from(b), u64::from(d)])
    } else if is_one_of(d, a, b) {
        facet_on_boundary(whole, [u64::from(a), u64::from(b), u64::from(c)])
    } else {
        false
    }
}

/// Whether a leaf is one of two.
fn is_one_of(leaf: u32, a: u32, b: u32) -> bool
    ensures { result ≡ ((leaf == a) || (leaf == b)) }
{
    leaf == a || leaf == b
}
