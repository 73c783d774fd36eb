//! Facets of small grids, by hand.

use std::test::Fail;
use viz_extent::Extent;
use viz_surface_law::facet_on_boundary;

#[test]
fn facets_of_a_cube(rt: HostRuntime) -> Result<(), Fail> {
    let whole = Extent::new([0, 1, 0, 1, 0, 1]).ok_or("an extent")?;
    for (corners, want) in [
        // Half of each side of the cube.
        ([0, 2, 6], true),
        ([1, 5, 7], true),
        ([0, 1, 5], true),
        ([2, 3, 7], true),
        ([0, 1, 3], true),
        ([4, 6, 7], true),
        // On the diagonal from the lowest corner to the highest.
        ([0, 1, 7], false),
        ([0, 6, 7], false),
        ([0, 3, 7], false),
    ] {
        let answer = on_boundary(&whole, corners)?;
        assert_eq!(rt; answer, want, "{corners:?}");
    }
    Ok(())
}

#[test]
fn facets_of_four_cubes(rt: HostRuntime) -> Result<(), Fail> {
    // Rows of three points, planes of nine, from 7, 3, 5 on.
    let whole = Extent::new([7, 9, 3, 5, 5, 6]).ok_or("an extent")?;
    for (corners, want) in [
        // Across x: at 7, between two cubes, and at 9.
        ([0, 3, 12], true),
        ([1, 4, 13], false),
        ([2, 5, 14], true),
        // Across y: at 3, at 4, and at 5.
        ([0, 1, 10], true),
        ([3, 4, 13], false),
        ([6, 7, 16], true),
        // Across z: at 5 and at 6.
        ([0, 1, 4], true),
        ([9, 10, 13], true),
        // At both ends of y and of z, and all at no end.
        ([0, 6, 15], true),
        ([1, 7, 16], false),
    ] {
        let answer = on_boundary(&whole, corners)?;
        assert_eq!(rt; answer, want, "{corners:?}");
    }
    Ok(())
}

#[test]
fn every_facet_of_one_layer_of_points(rt: HostRuntime) -> Result<(), Fail> {
    let whole = Extent::new([0, 2, 0, 2, 4, 4]).ok_or("an extent")?;
    assert!(rt; on_boundary(&whole, [0, 4, 8])?);
    Ok(())
}

// The answer for three points that the grid has.
fn on_boundary(whole: &Extent, corners: [u64; 3]) -> Result<bool, Fail> {
    let [a, b, c] = corners;
    let count = whole.count();
    if a >= count || b >= count || c >= count {
        return Err("three points of the grid")?;
    }
    Ok(facet_on_boundary(whole, corners))
}
