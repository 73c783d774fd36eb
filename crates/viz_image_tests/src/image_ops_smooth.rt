//! Box means by hand.

use crate::test_images::{STEPS, Side, image_of, is_image, is_part};
use std::alloc::Global;
use viz_column::Kind8;
use viz_dataset::Image;
use viz_extent::Extent;
use viz_image_ops::smooth;

// A box mean on a part, where the image has it.
fn smoothed(alloc: Global, image: &Image, radius: u32, part: [u32; 6]) -> Option<Image> {
    let out = Extent::new(part)?;
    let whole = image.extent();
    if !is_part(&whole, &out) || !is_part(&whole, &out.grow(radius, &whole)) {
        return None;
    }
    smooth(alloc, image, radius, &whole, &out).ok()
}

/// Whether the box mean of these numbers has on a part the wanted ones.
pub(crate) fn smooths(
    alloc: Global,
    radius: u32,
    (kind, whole, numbers): Side,
    part: [u32; 6],
    want: &[i128],
) -> bool {
    match image_of(alloc, kind, whole, numbers) {
        Some(image) => {
            let means = smoothed(alloc, &image, radius, part);
            is_image(means, part, STEPS, kind, want)
        }
        None => false,
    }
}

// Three points along x.
const THREE: [u32; 6] = [4, 6, 0, 0, 0, 0];

// The ends of 32 and of 64 bits, with a sign and without.
const LOW32: i128 = -(1 << 31);

const HIGH32: i128 = (1 << 31) - 1;

const MOST32: i128 = (1 << 32) - 1;

const LOW64: i128 = -(1 << 63);

const MOST64: i128 = (1 << 64) - 1;

/// The type, the radius, the numbers and their means.
#[rattlefmt::skip]
const ROWS: [(Kind8, u32, [i128; 3], [i128; 3]); 14] = [
    // The row floor-of-mean.
    (Kind8::I8, 1, [-1, 0, 0], [-1, -1, 0]),
    // No other point with radius 0, and all of them with radius 8 and far beyond.
    (Kind8::I16, 0, [-5, 7, -9], [-5, 7, -9]),
    (Kind8::I32, 8, [-5, 7, -9], [-3, -3, -3]),
    (Kind8::U32, u32::MAX, [1, 2, 5], [2, 2, 2]),
    // Both ends of 64 bits.
    (Kind8::U64, 1, [MOST64, MOST64, 0],
        [MOST64, 12_297_829_382_473_034_410, 9_223_372_036_854_775_807]),
    (Kind8::I64, 2, [LOW64, LOW64, LOW64], [LOW64, LOW64, LOW64]),
    // Sums of two and three quarters of the range, which 64 bits hold, of both signs.
    (Kind8::I64, 1, [1 << 62, (1 << 62) - 1, 0],
        [4_611_686_018_427_387_903, 3_074_457_345_618_258_602, 2_305_843_009_213_693_951]),
    (Kind8::I64, 1, [-(1 << 62), -(1 << 62), 1],
        [-4_611_686_018_427_387_904, -3_074_457_345_618_258_603, -2_305_843_009_213_693_952]),
    // Both ends of the types of 8, 16 and 32 bits.
    (Kind8::I8, 1, [-128, -128, 127], [-128, -43, -1]),
    (Kind8::U8, 1, [255, 255, 0], [255, 170, 127]),
    (Kind8::I16, 1, [-32_768, -32_768, 32_767], [-32_768, -10_923, -1]),
    (Kind8::U16, 1, [65_535, 65_535, 0], [65_535, 43_690, 32_767]),
    (Kind8::I32, 1, [LOW32, LOW32, HIGH32], [LOW32, -715_827_883, -1]),
    (Kind8::U32, 1, [MOST32, MOST32, 0], [MOST32, 2_863_311_530, 2_147_483_647]),
];

#[test]
fn means_are_rounded_down(rt: HostRuntime) {
    for (kind, radius, numbers, want) in &ROWS {
        let holds = smooths(rt.alloc(), *radius, (*kind, THREE, numbers), THREE, want);
        assert!(rt; holds, "{kind:?} {radius} {numbers:?}");
    }
}

// Eight points along x.
const EIGHT: [u32; 6] = [4, 11, 0, 0, 0, 0];

// Windows that move on by one between two that are clipped; a part of them has the same means.
#[test]
fn windows_move_over_a_row(rt: HostRuntime) {
    let row: Side = (Kind8::I16, EIGHT, &[-9, 4, 0, 7, -2, -2, 5, 1]);
    assert!(rt; smooths(rt.alloc(), 1, row, EIGHT, &[-3, -2, 3, 1, 1, 0, 1, 3]));
    assert!(rt; smooths(rt.alloc(), 1, row, [6, 9, 0, 0, 0, 0], &[3, 1, 1, 0]));
}

// A cube of 27 points.
const CUBE: [u32; 6] = [2, 4, 3, 5, 1, 3];

// Its numbers: 0 everywhere but at the point within.
fn single(n: i128) -> [i128; 27] {
    [
        0, 0, 0, 0, 0, 0, 0, 0, 0, 0, 0, 0, 0, n, 0, 0, 0, 0, 0, 0, 0, 0, 0, 0, 0, 0, 0,
    ]
}

/// A corner's box has 8 points, an edge's 12, a face's 18.
#[rattlefmt::skip]
const CLIPPED: [i128; 27] = [
    3, 2, 3, 2, 1, 2, 3, 2, 3,
    2, 1, 2, 1, 1, 1, 2, 1, 2,
    3, 2, 3, 2, 1, 2, 3, 2, 3,
];

#[test]
fn a_box_is_clipped_at_each_face(rt: HostRuntime) {
    let numbers = single(27);
    assert!(rt; smooths(rt.alloc(), 1, (Kind8::U16, CUBE, &numbers), CUBE, &CLIPPED));
    // On a part the points of the whole round it count: of -27 at the point within, the floor of
    // -27/12 at an edge and of -27/18 at a face.
    let numbers = single(-27);
    let part = [4, 4, 3, 4, 2, 2];
    assert!(rt; smooths(rt.alloc(), 1, (Kind8::I8, CUBE, &numbers), part, &[-3, -2]));
}
