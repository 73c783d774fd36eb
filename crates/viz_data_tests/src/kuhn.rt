//! Cubes and tetrahedra numbered by hand.
use viz_extent::Extent;
use viz_kuhn::{cubes, even, tet};

// Whether an extent has so many cubes.
fn has_cubes((bounds, count): &([u32; 6], u64)) -> bool {
    match Extent::new(*bounds) {
        Some(whole) => cubes(&whole) == *count,
        None => false,
    }
}

#[test]
fn cubes_lie_between_points(rt: HostRuntime) {
    for row in &[
        ([0, 1, 0, 1, 0, 1], 1),
        ([0, 2, 0, 2, 0, 1], 4),
        ([4, 7, 1, 3, 2, 7], 30),
        // None where an axis has one index.
        ([3, 3, 0, 4, 0, 4], 0),
        ([0, 4, 3, 3, 0, 4], 0),
        ([0, 4, 0, 4, 3, 3], 0),
        // Of 4 * 536,870,911 points, which is 4 less than 2^31.
        ([0, 1, 0, 1, 0, 536_870_910], 536_870_910),
    ] {
        assert!(rt; has_cubes(row), "{row:?}");
    }
}

// Whether the order of a row is even as the row says.
fn is_order((p, is_even): &(u8, bool)) -> bool {
    *p < 6 && even(*p) == *is_even
}

#[test]
fn orders_are_even_or_odd(rt: HostRuntime) {
    for row in &[
        (0, true), // x y z
        (1, false), // x z y
        (2, false), // y x z
        (3, true), // y z x
        (4, true), // z x y
        (5, false), // z y x
    ] {
        assert!(rt; is_order(row), "{row:?}");
    }
}

// Whether a tetrahedron of a cube of an extent has these leaves.
fn is_tet((bounds, cube, p, leaves): &([u32; 6], u64, u8, [u64; 4])) -> bool {
    match Extent::new(*bounds) {
        Some(whole) if *cube < cubes(&whole) && *p < 6 => tet(&whole, *cube, *p) == *leaves,
        _ => false,
    }
}

#[test]
fn tetrahedra_go_along_paths(rt: HostRuntime) {
    for row in &[
        // One cube between eight points.
        ([0, 1, 0, 1, 0, 1], 0, 0, [0, 1, 3, 7]),
        ([0, 1, 0, 1, 0, 1], 0, 1, [0, 5, 1, 7]),
        ([0, 1, 0, 1, 0, 1], 0, 2, [0, 3, 2, 7]),
        ([0, 1, 0, 1, 0, 1], 0, 3, [0, 2, 6, 7]),
        ([0, 1, 0, 1, 0, 1], 0, 4, [0, 4, 5, 7]),
        ([0, 1, 0, 1, 0, 1], 0, 5, [0, 6, 4, 7]),
        // Rows of three points, planes of nine: the four cubes in order.
        ([0, 2, 0, 2, 0, 1], 0, 0, [0, 1, 4, 13]),
        ([0, 2, 0, 2, 0, 1], 1, 0, [1, 2, 5, 14]),
        ([0, 2, 0, 2, 0, 1], 2, 0, [3, 4, 7, 16]),
        ([0, 2, 0, 2, 0, 1], 3, 0, [4, 5, 8, 17]),
        ([0, 2, 0, 2, 0, 1], 3, 5, [4, 16, 13, 17]),
        // Rows of two points, planes of six, from 7, 3, 5 on: cubes 2 and 3 lie in the upper layer.
        ([7, 8, 3, 5, 5, 7], 1, 2, [2, 5, 4, 11]),
        ([7, 8, 3, 5, 5, 7], 2, 2, [6, 9, 8, 15]),
        ([7, 8, 3, 5, 5, 7], 3, 3, [8, 10, 16, 17]),
    ] {
        assert!(rt; is_tet(row), "{row:?}");
    }
}
