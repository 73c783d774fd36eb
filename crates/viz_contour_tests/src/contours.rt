//! Contours of one cube of points, reckoned by hand.
use std::alloc::Global;
use std::process::Abort;
use std::test::Fail;
use viz_column::{Column, Number};
use viz_contour::contour;
use viz_dataset::{Image, is_origin, is_spacing};
use viz_extent::Extent;
use viz_fraction::Point5;
use viz_meaning::WorkStop;
use viz_sheet::Sheet;

/// So many billionths make 1.
const ONE: i128 = 1_000_000_000;

/// The points of a single cube.
const CUBE: [u32; 6] = [0, 1, 0, 1, 0, 1];

// The image of a column, where there is one.
fn image_of(
    extent: Extent,
    origin: [i128; 3],
    spacing: [i128; 3],
    column: Column,
) -> Option<Image> {
    if !is_origin(&origin) || !is_spacing(&spacing) || column.len() != extent.count() {
        return None;
    }
    Some(Image::new(extent, origin, spacing, column))
}

// The image of these numbers, as values of a type.
fn image_with<T: Number>(
    alloc: Global,
    bounds: [u32; 6],
    origin: [i128; 3],
    spacing: [i128; 3],
    numbers: &[i128],
) -> Result<Image, Fail> {
    let extent = Extent::new(bounds).ok_or("an extent")?;
    let mut values = Vec::new(alloc);
    for n in numbers {
        values.push(T::of_whole(*n).unwrap_or(T::zero()))?;
    }
    let image = image_of(extent, origin, spacing, Column::of(values)).ok_or("an image")?;
    Ok(image)
}

/// The five numbers of a point.
fn five(p: &Point5) -> [i128; 5] {
    [p.x(), p.y(), p.z(), p.s(), p.w()]
}

// The contour of values at the cube's points, these steps from each other, has these points and
// triangles.
fn shows<T: Number>(
    rt: &impl Abort,
    alloc: Global,
    level: &i64,
    spacing: [i128; 3],
    values: [i128; 8],
    points: &[[i128; 5]],
    triangles: &[[u32; 3]],
) -> Result<(), Fail> {
    let image = image_with::<T>(alloc, CUBE, [0; 3], spacing, &values)?;
    let sheet = contour(alloc, level, &image)?;
    has_triangles(rt, &sheet, triangles);
    assert_eq!(rt; sheet.point_count(), points.len(), "{values:?}");
    for (rank, want) in points.iter().enumerate() {
        assert_eq!(rt; five(&point_at(rt, &sheet, rank)), *want, "{values:?}");
    }
    Ok(())
}

// The sheet has these triangles by ranks, in order.
fn has_triangles(rt: &impl Abort, sheet: &Sheet, triangles: &[[u32; 3]]) {
    assert_eq!(rt; sheet.cell_count(), triangles.len(), "{triangles:?}");
    for (i, triangle) in triangles.iter().enumerate() {
        assert!(rt; i < sheet.cell_count(), "{triangles:?}");
        assert_eq!(rt; sheet.cell(i), triangle.as_slice(), "{triangles:?}");
    }
}

// The point of a rank.
fn point_at(rt: &impl Abort, sheet: &Sheet, rank: usize) -> Point5 {
    assert!(rt; rank < sheet.point_count(), "{rank}");
    sheet.point(rank)
}

// Where the last point alone is inside, a triangle in each tetrahedron.
const LAST: [[u32; 3]; 6] = [
    [1, 0, 3],
    [5, 0, 1],
    [3, 0, 2],
    [2, 0, 6],
    [4, 0, 5],
    [6, 0, 4],
];

// The points on the edges from each point to the last one, so many parts of so many on the way,
// with a scalar of so many of those parts.
const fn far(way: i128, parts: i128, scalar: i128) -> [[i128; 5]; 7] {
    [
        [way, way, way, scalar, parts],
        [parts, way, way, scalar, parts],
        [way, parts, way, scalar, parts],
        [parts, parts, way, scalar, parts],
        [way, way, parts, scalar, parts],
        [parts, way, parts, scalar, parts],
        [way, parts, parts, scalar, parts],
    ]
}

#[test]
fn a_corner_is_cut_off(rt: HostRuntime) -> Result<(), Fail> {
    let alloc = rt.alloc();
    let unit = [ONE; 3];
    // Five ninths of the way from each point to the last one.
    let nine = [0, 0, 0, 0, 0, 0, 0, 9];
    shows::<i32>(&rt, alloc, &5, unit, nine, &far(5, 9, 45), &LAST)?;
    // Each on the last point itself, whose value is the level.
    let five = [0, 0, 0, 0, 0, 0, 0, 5];
    shows::<u16>(&rt, alloc, &5, unit, five, &far(1, 1, 5), &LAST)?;
    // All inside, and none.
    shows::<i32>(&rt, alloc, &5, unit, [9; 8], &[], &[])?;
    shows::<i32>(&rt, alloc, &5, unit, [4; 8], &[], &[])
}

// The last point is the greater leaf of each name, and the names ascend by the lesser ones.
#[test]
fn names_are_pairs_of_leaves(rt: HostRuntime) -> Result<(), Fail> {
    let values = [0, 0, 0, 0, 0, 0, 0, 9];
    let image = image_with::<i32>(rt.alloc(), CUBE, [0; 3], [ONE; 3], &values)?;
    let sheet = contour(rt.alloc(), &5, &image)?;
    assert_eq!(rt; sheet.point_count(), 7);
    for rank in 0..7 {
        assert!(rt; rank < sheet.point_count(), "{rank}");
        assert_eq!(rt; sheet.name(rank), [rank as u32, 7].as_slice(), "{rank}");
    }
    Ok(())
}

#[test]
fn values_are_of_any_type(rt: HostRuntime) -> Result<(), Fail> {
    let alloc = rt.alloc();
    let unit = [ONE; 3];
    // 8 bits and a sign: 128 parts of 255 on the way from -128 to 127.
    let least = [-128, -128, -128, -128, -128, -128, -128, 127];
    shows::<i8>(&rt, alloc, &0, unit, least, &far(128, 255, 0), &LAST)?;
    // 64 bits without a sign: 5 parts of 2^64 - 1 on the way from 0, so 1 of a fifth of them.
    const MOST: i128 = 18_446_744_073_709_551_615;
    let most = [0, 0, 0, 0, 0, 0, 0, MOST];
    let fifth = 3_689_348_814_741_910_323;
    shows::<u64>(&rt, alloc, &5, unit, most, &far(1, fifth, MOST), &LAST)
}

#[test]
fn steps_are_of_any_width(rt: HostRuntime) -> Result<(), Fail> {
    let alloc = rt.alloc();
    let nine = [0, 0, 0, 0, 0, 0, 0, 9];
    // Steps of a half: five ninths of it are 5 eighteenths, and the half itself is 9 of them.
    let mut half = far(5, 9, 45);
    for point in &mut half {
        point[3] = 90;
        point[4] = 18;
    }
    shows::<i32>(&rt, alloc, &5, [ONE / 2; 3], nine, &half, &LAST)
}

#[test]
fn a_point_divides_its_edge(rt: HostRuntime) -> Result<(), Fail> {
    // Origin 10, -1, 0 and steps of 2, 3 and 1: from (14, -1, 5) on.
    let origin = [10 * ONE, -ONE, 0];
    let spacing = [2 * ONE, 3 * ONE, ONE];
    let bounds = [2, 3, 0, 1, 5, 6];
    // From x = 1.25 to x = 1.75, and from a whole x = 1 to the same.
    let quarter = [ONE / 4, 0, 0];
    let halves = [ONE / 2, ONE, ONE];
    let back = [-2 * ONE, 0, 0];
    let three_quarters = [3 * ONE / 4, ONE, ONE];
    for (bounds, origin, spacing, values, want) in [
        // To (16, -1, 5), two thirds of the way and one.
        (
            bounds,
            origin,
            spacing,
            [-6, 3, -6, 3, -6, 3, -6, 3],
            [46, -3, 15, 0, 3],
        ),
        (
            bounds,
            origin,
            spacing,
            [3, -6, 3, -6, 3, -6, 3, -6],
            [44, -3, 15, 0, 3],
        ),
        // To (14, 2, 5), and a third of the way up the z axis.
        (
            bounds,
            origin,
            spacing,
            [-6, -6, 3, 3, -6, -6, 3, 3],
            [14, 1, 5, 0, 1],
        ),
        (
            bounds,
            origin,
            spacing,
            [2, 2, 2, 2, -4, -4, -4, -4],
            [42, -3, 16, 0, 3],
        ),
        // Half the way, and two thirds.
        (
            [2, 3, 0, 1, 0, 1],
            quarter,
            halves,
            [-1, 1, -1, 1, -1, 1, -1, 1],
            [3, 0, 0, 0, 2],
        ),
        (
            [4, 5, 0, 1, 0, 1],
            back,
            three_quarters,
            [-2, 1, -2, 1, -2, 1, -2, 1],
            [3, 0, 0, 0, 2],
        ),
    ] {
        let image = image_with::<i32>(rt.alloc(), bounds, origin, spacing, &values)?;
        let found = contour(rt.alloc(), &0, &image)?;
        let first = five(&point_at(&rt, &found, 0));
        assert_eq!(rt; first, want, "{bounds:?} {values:?}");
    }
    Ok(())
}

// Far from 0 by 2^59, weights of 2^63 make a number wide, and weights below 10 don't.
#[test]
fn a_wide_crossing_is_refused(rt: HostRuntime) -> Result<(), Fail> {
    for (outside, inside, refused) in [
        (-9_223_372_036_854_775_808, 9_223_372_036_854_775_807, true),
        (-5, 4, false),
    ] {
        let values = [
            outside, outside, outside, outside, outside, outside, outside, inside,
        ];
        let far = [ONE * ONE * ONE, 0, 0];
        let image = image_with::<i64>(rt.alloc(), CUBE, far, [ONE; 3], &values)?;
        let answer = contour(rt.alloc(), &0, &image);
        assert_eq!(rt;
            matches!(answer, Err(WorkStop::TooWide)),
            refused,
            "{values:?}"
        );
    }
    Ok(())
}

#[test]
fn a_value_equal_to_the_level_is_inside(rt: HostRuntime) -> Result<(), Fail> {
    let alloc = rt.alloc();
    let unit = [ONE; 3];
    // Levels that no value reaches, and that all do.
    let last = [0, 0, 0, 0, 0, 0, 0, 2_147_483_647];
    shows::<i32>(&rt, alloc, &i64::MAX, unit, last, &[], &[])?;
    shows::<i32>(&rt, alloc, &i64::MIN, unit, last, &[], &[])?;
    // The highest level, on the last point itself.
    let highest = [0, 0, 0, 0, 0, 0, 0, 9_223_372_036_854_775_807];
    let points = far(1, 1, 9_223_372_036_854_775_807);
    shows::<u64>(&rt, alloc, &i64::MAX, unit, highest, &points, &LAST)
}
