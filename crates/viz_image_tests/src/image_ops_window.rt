//! Box means of longer rows, where windows move within the whole, against a plain slow program.

use crate::image_ops_smooth::smooths;
use std::alloc::{AllocError, Global};
use std::test::Fail;
use viz_column::Kind8;

/// 24 by 19 by 18 points, so that a box of 17 on each axis moves along each.
const WHOLE: [u32; 6] = [3, 26, 1, 19, 5, 22];

// The indices of a point, and its number.
#[derive(Clone, Copy)]
struct Spot {
    at: [u32; 3],
    number: i128,
}

// The points of the whole, x fastest, with numbers of 16 bits with a sign that are as if drawn,
// each times the same factor.
fn spots(alloc: Global, factor: i128) -> Result<Vec<Spot>, AllocError> {
    let [x0, x1, y0, y1, z0, z1] = WHOLE;
    let mut spots = Vec::new(alloc);
    let mut state: u32 = 1;
    for z in z0..z1 + 1 {
        for y in y0..y1 + 1 {
            for x in x0..x1 + 1 {
                state = state.wrapping_mul(1_664_525).wrapping_add(1_013_904_223);
                let drawn = i128::from(state >> 16) - 32_768;
                let number = drawn.saturating_mul(factor);
                spots.push(Spot {
                    at: [x, y, z],
                    number,
                })?;
            }
        }
    }
    Ok(spots)
}

// Whether the indices differ by at most the radius along each axis.
fn are_near(a: &[u32; 3], b: &[u32; 3], radius: u32) -> bool {
    a[0].abs_diff(b[0]) <= radius && a[1].abs_diff(b[1]) <= radius && a[2].abs_diff(b[2]) <= radius
}

// The mean over all points of the whole whose indices differ from these by at most the radius,
// rounded down.
fn mean_round(spots: &[Spot], at: &[u32; 3], radius: u32) -> i128 {
    let mut sum: i128 = 0;
    let mut count: i128 = 0;
    for spot in spots {
        if are_near(&spot.at, at, radius) {
            sum = sum.saturating_add(spot.number);
            count = count.saturating_add(1);
        }
    }
    if count < 1 {
        return 0;
    }
    sum.div_euclid(count)
}

// Whether a point lies in a part.
fn is_in(part: &[u32; 6], at: &[u32; 3]) -> bool {
    let [x, y, z] = *at;
    let [x0, x1, y0, y1, z0, z1] = *part;
    x0 <= x && x <= x1 && y0 <= y && y <= y1 && z0 <= z && z <= z1
}

// The numbers of the points.
fn numbers_of(alloc: Global, spots: &[Spot]) -> Result<Vec<i128>, AllocError> {
    let mut numbers = Vec::new(alloc);
    for spot in spots {
        numbers.push(spot.number)?;
    }
    Ok(numbers)
}

// The means at the points of a part, by the slow program.
fn means_of(
    alloc: Global,
    spots: &[Spot],
    radius: u32,
    part: &[u32; 6],
) -> Result<Vec<i128>, AllocError> {
    let mut means = Vec::new(alloc);
    for spot in spots {
        if is_in(part, &spot.at) {
            means.push(mean_round(spots, &spot.at, radius))?;
        }
    }
    Ok(means)
}

/// The type of the numbers, their factor, the radius and the part.
type Long = (Kind8, i128, u32, [u32; 6]);

#[rattlefmt::skip]
const LONG: [Long; 4] = [
    (Kind8::I16, 1, 8, WHOLE),
    // No other point.
    (Kind8::I16, 1, 0, WHOLE),
    // Numbers of 64 bits, whose sums take up to 76.
    (Kind8::I64, 281_474_976_710_655, 8, WHOLE),
    // Some windows are clipped and some aren't.
    (Kind8::I16, 1, 8, [9, 16, 8, 12, 5, 14]),
];

// Whether the box mean on a part is that of the slow program at each of its points.
fn agree(alloc: Global, (kind, factor, radius, part): &Long) -> Result<bool, AllocError> {
    let spots = spots(alloc, *factor)?;
    let numbers = numbers_of(alloc, &spots)?;
    let want = means_of(alloc, &spots, *radius, part)?;
    Ok(smooths(alloc, *radius, (*kind, WHOLE, &numbers), *part, &want))
}

#[test]
fn long_means_are_those_of_all_points(rt: HostRuntime) -> Result<(), Fail> {
    for row in &LONG {
        assert!(rt; agree(rt.alloc(), row)?, "{row:?}");
    }
    Ok(())
}
