//! Parts of extents counted by hand: grown, sampled and spread.
ghost use Rattle.std.specs.Prelude.{◌↔◌, IsTrue};
ghost use Rattle.viz_extent.specs.Parts.{rate_of, IsAxisRate, IsRate};

use std::test::Fail;
use viz_extent::Extent;

// The bounds of the part that is grown by so many within the whole, where the whole has it.
fn grown(extent: [u32; 6], by: u32, whole: [u32; 6]) -> Option<[u32; 6]> {
    let extent = Extent::new(extent)?;
    let whole = Extent::new(whole)?;
    if !whole.contains(&extent) {
        return None;
    }
    Some(extent.grow(by, &whole).bounds())
}

// Whether a part grows to what a row says, within one whole.
fn is_grown((extent, by, want): &([u32; 6], u32, Option<[u32; 6]>)) -> bool {
    grown(*extent, *by, [2, 11, 3, 12, 4, 13]) == *want
}

#[test]
fn an_extent_grows_within_the_whole(rt: HostRuntime) {
    for row in &[
        ([5, 6, 6, 7, 7, 8], 0, Some([5, 6, 6, 7, 7, 8])),
        ([5, 6, 6, 7, 7, 8], 1, Some([4, 7, 5, 8, 6, 9])),
        ([5, 6, 6, 7, 7, 8], 8, Some([2, 11, 3, 12, 4, 13])),
        ([5, 6, 6, 7, 7, 8], u32::MAX, Some([2, 11, 3, 12, 4, 13])),
        // At the lowest corner and at the highest one.
        ([2, 2, 3, 3, 4, 4], 2, Some([2, 4, 3, 5, 4, 6])),
        ([11, 11, 12, 12, 13, 13], 2, Some([9, 11, 10, 12, 11, 13])),
        // Not in the whole.
        ([1, 2, 3, 3, 4, 4], 1, None),
    ] {
        assert!(rt; is_grown(row), "{row:?}");
    }
}

// Whether a rate along an axis is 1 to 1024.
fn is_axis_rate(rate: u32) -> bool
    ensures { IsTrue result ↔ IsAxisRate rate }
{
    1 <= rate && rate <= 1024
}

// Whether each of three is.
fn is_rate(rate: [u32; 3]) -> bool
    ensures { IsTrue result ↔ IsRate (rate_of rate) }
{
    is_axis_rate(rate[0]) && is_axis_rate(rate[1]) && is_axis_rate(rate[2])
}

// The bounds of the kept indices, where the rate is one.
fn sampled(bounds: [u32; 6], rate: [u32; 3]) -> Option<[u32; 6]> {
    let extent = Extent::new(bounds)?;
    if is_rate(rate) {
        let kept = extent.sampled(rate)?;
        Some(kept.bounds())
    } else {
        None
    }
}

// Whether a rate keeps what a row says.
fn is_sampled((bounds, rate, want): &([u32; 6], [u32; 3], Option<[u32; 6]>)) -> bool {
    sampled(*bounds, *rate) == *want
}

#[test]
fn every_so_many_planes_are_kept(rt: HostRuntime) {
    for row in &[
        ([0, 9, 0, 9, 0, 9], [1, 1, 1], Some([0, 9, 0, 9, 0, 9])),
        ([0, 9, 0, 9, 0, 9], [2, 3, 4], Some([0, 4, 0, 3, 0, 2])),
        // Extents that do not begin at 0: 4 6 8, 6 9, and 8 alone.
        ([3, 9, 4, 9, 5, 9], [2, 3, 4], Some([2, 4, 2, 3, 2, 2])),
        // A single plane that is kept, on each axis.
        ([6, 6, 6, 6, 6, 6], [2, 3, 6], Some([3, 3, 2, 2, 1, 1])),
        (
            [1024, 2047, 0, 0, 0, 0],
            [1024, 1024, 1024],
            Some([1, 1, 0, 0, 0, 0]),
        ),
        // An axis on which nothing is left.
        ([7, 7, 6, 6, 6, 6], [2, 3, 6], None),
        ([6, 6, 7, 8, 6, 6], [2, 3, 6], None),
        ([6, 6, 6, 6, 7, 11], [2, 3, 6], None),
        ([1, 1023, 0, 9, 0, 9], [1024, 1, 1], None),
    ] {
        assert!(rt; is_sampled(row), "{row:?}");
    }
}

#[test]
fn bounds_are_spread_by_a_rate(rt: HostRuntime) -> Result<(), Fail> {
    let small = Extent::new([1, 2, 3, 3, 0, 5]).ok_or("an extent")?;
    assert_eq!(rt;
        small.spread([2, 1024, 3]).bounds(),
        [2, 4, 3072, 3072, 0, 15]
    );
    assert_eq!(rt; small.spread([1, 1, 1]).bounds(), [1, 2, 3, 3, 0, 5]);
    Ok(())
}
