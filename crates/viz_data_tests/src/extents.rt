//! Points counted and numbered by hand.
use viz_extent::Extent;

// Whether bounds make an extent of so many points.
fn has_points((bounds, count): &([u32; 6], u64)) -> bool {
    match Extent::new(*bounds) {
        Some(extent) => extent.bounds() == *bounds && extent.count() == *count,
        None => false,
    }
}

#[test]
fn an_extent_has_its_bounds_and_points(rt: HostRuntime) {
    for row in &[
        ([0, 0, 0, 0, 0, 0], 1),
        ([0, 1, 0, 2, 0, 3], 24),
        ([3, 6, 2, 2, 5, 9], 20),
        // The highest bound.
        ([2_147_483_647; 6], 1),
        // 2^31 - 1 points, and 3 * 715,827,882 of them.
        ([0, 2_147_483_646, 0, 0, 0, 0], 2_147_483_647),
        ([0, 0, 1, 3, 0, 715_827_881], 2_147_483_646),
    ] {
        assert!(rt; has_points(row), "{row:?}");
    }
}

// Whether bounds make an extent.
fn is_extent(bounds: &[u32; 6]) -> bool {
    Extent::new(*bounds).is_some()
}

#[test]
fn other_bounds_make_no_extent(rt: HostRuntime) {
    for bounds in &[
        // A lower bound above its upper one.
        [1, 0, 0, 0, 0, 0],
        [0, 0, 1, 0, 0, 0],
        [0, 0, 0, 0, 1, 0],
        // One point, at 2^31 along an axis.
        [2_147_483_648, 2_147_483_648, 0, 0, 0, 0],
        [0, 0, 2_147_483_648, 2_147_483_648, 0, 0],
        [0, 0, 0, 0, 2_147_483_648, 2_147_483_648],
        // 2^31 points: in one row, as 2^16 * 2^15, and as 2 * 2 * 2^29.
        [0, 2_147_483_647, 0, 0, 0, 0],
        [0, 65_535, 0, 32_767, 0, 0],
        [0, 1, 0, 1, 0, 536_870_911],
        // 2^64 points, which 64 bits would take for none.
        [0, 2_147_483_647, 0, 2_147_483_647, 0, 3],
    ] {
        assert!(rt; !is_extent(bounds), "{bounds:?}");
    }
}

// Whether the point at a place of an extent has this number, and the other way round.
fn is_numbered((bounds, index, place): &([u32; 6], u64, (u32, u32, u32))) -> bool {
    match Extent::new(*bounds) {
        Some(extent) if *index < extent.count() => {
            let (i, j, k) = extent.place_of(*index);
            (i, j, k) == *place && extent.index_of(i, j, k) == *index
        }
        _ => false,
    }
}

#[test]
fn numbers_go_with_x_fastest(rt: HostRuntime) {
    for row in &[
        // Three by two by two points, all in order.
        ([1, 3, 5, 6, 2, 3], 0, (1, 5, 2)),
        ([1, 3, 5, 6, 2, 3], 1, (2, 5, 2)),
        ([1, 3, 5, 6, 2, 3], 2, (3, 5, 2)),
        ([1, 3, 5, 6, 2, 3], 3, (1, 6, 2)),
        ([1, 3, 5, 6, 2, 3], 4, (2, 6, 2)),
        ([1, 3, 5, 6, 2, 3], 5, (3, 6, 2)),
        ([1, 3, 5, 6, 2, 3], 6, (1, 5, 3)),
        ([1, 3, 5, 6, 2, 3], 7, (2, 5, 3)),
        ([1, 3, 5, 6, 2, 3], 8, (3, 5, 3)),
        ([1, 3, 5, 6, 2, 3], 9, (1, 6, 3)),
        ([1, 3, 5, 6, 2, 3], 10, (2, 6, 3)),
        ([1, 3, 5, 6, 2, 3], 11, (3, 6, 3)),
        // One row along each axis.
        ([4, 9, 7, 7, 8, 8], 5, (9, 7, 8)),
        ([4, 4, 7, 9, 8, 8], 1, (4, 8, 8)),
        ([4, 4, 7, 7, 8, 9], 1, (4, 7, 9)),
        // The last point of the longest row.
        (
            [0, 2_147_483_646, 0, 0, 0, 0],
            2_147_483_646,
            (2_147_483_646, 0, 0),
        ),
    ] {
        assert!(rt; is_numbered(row), "{row:?}");
    }
}

// Whether an extent contains another one, where both are extents.
fn contains(bounds: [u32; 6], other: [u32; 6]) -> Option<bool> {
    let extent = Extent::new(bounds)?;
    let part = Extent::new(other)?;
    Some(extent.contains(&part))
}

// Whether a row says so of two extents.
fn is_said((bounds, other, want): &([u32; 6], [u32; 6], bool)) -> bool {
    contains(*bounds, *other) == Some(*want)
}

#[test]
fn an_extent_contains_what_lies_in_it(rt: HostRuntime) {
    for row in &[
        ([1, 4, 2, 5, 3, 6], [1, 4, 2, 5, 3, 6], true),
        ([1, 4, 2, 5, 3, 6], [2, 3, 4, 4, 5, 6], true),
        // One plane too many on each face.
        ([1, 4, 2, 5, 3, 6], [0, 4, 2, 5, 3, 6], false),
        ([1, 4, 2, 5, 3, 6], [1, 5, 2, 5, 3, 6], false),
        ([1, 4, 2, 5, 3, 6], [1, 4, 1, 5, 3, 6], false),
        ([1, 4, 2, 5, 3, 6], [1, 4, 2, 6, 3, 6], false),
        ([1, 4, 2, 5, 3, 6], [1, 4, 2, 5, 2, 6], false),
        ([1, 4, 2, 5, 3, 6], [1, 4, 2, 5, 3, 7], false),
    ] {
        assert!(rt; is_said(row), "{row:?}");
    }
}

// The bounds of what a box leaves of an extent, if that is one point or more.
fn clipped(bounds: [u32; 6]) -> Option<[u32; 6]> {
    let extent = Extent::new([1, 4, 2, 5, 3, 6])?;
    let rest = extent.clip(bounds)?;
    Some(rest.bounds())
}

// Whether a box leaves what a row says.
fn is_clipped((bounds, want): &([u32; 6], Option<[u32; 6]>)) -> bool {
    clipped(*bounds) == *want
}

#[test]
fn a_box_clips_an_extent(rt: HostRuntime) {
    for row in &[
        ([0, 9, 0, 9, 0, 9], Some([1, 4, 2, 5, 3, 6])),
        // Clipped at each face in turn.
        ([2, 9, 0, 9, 0, 9], Some([2, 4, 2, 5, 3, 6])),
        ([0, 2, 0, 9, 0, 9], Some([1, 2, 2, 5, 3, 6])),
        ([0, 9, 4, 9, 0, 9], Some([1, 4, 4, 5, 3, 6])),
        ([0, 9, 0, 4, 0, 9], Some([1, 4, 2, 4, 3, 6])),
        ([0, 9, 0, 9, 6, 9], Some([1, 4, 2, 5, 6, 6])),
        ([0, 9, 0, 9, 0, 3], Some([1, 4, 2, 5, 3, 3])),
        // The largest box, and bounds past 2^31.
        (
            [0, u32::MAX, 0, u32::MAX, 0, u32::MAX],
            Some([1, 4, 2, 5, 3, 6]),
        ),
        ([2_147_483_648, u32::MAX, 0, 9, 0, 9], None),
        // Beside each face, and a lower bound above its upper one.
        ([0, 0, 0, 9, 0, 9], None),
        ([5, 9, 0, 9, 0, 9], None),
        ([0, 9, 0, 1, 0, 9], None),
        ([0, 9, 6, 9, 0, 9], None),
        ([0, 9, 0, 9, 0, 2], None),
        ([0, 9, 0, 9, 7, 9], None),
        ([3, 2, 0, 9, 0, 9], None),
    ] {
        assert!(rt; is_clipped(row), "{row:?}");
    }
}
