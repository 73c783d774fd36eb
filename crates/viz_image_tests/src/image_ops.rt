//! Crop, sample, threshold and arithmetic, by hand.

ghost use Rattle.std.specs.Prelude.{◌≡◌, ◌≤◌, ◌↔◌, pos, ◌*ℤ◌, IsTrue};
ghost use Rattle.viz_extent.specs.Parts.{IsAxisRate, IsRate, rate_of, sampled};
ghost use Rattle.viz_dataset.specs.Images.{vector_of, IsStep, IsSpacing};
ghost use Rattle.viz_meaning.specs.ImageFilters.{wider_steps};

use crate::test_images::{STEPS, Side, image_of, is_image, is_part};
use std::alloc::Global;
use viz_column::Kind8;
use viz_dataset::{Image, is_spacing};
use viz_extent::Extent;
use viz_image_ops::{Op, arith, crop, sample, samples_ask_within_the_whole, threshold};

// Two by two by two points with the numbers 0 to 7, the lowest corner at 1, 5, 2.
const BLOCK: [u32; 6] = [1, 2, 5, 6, 2, 3];

const EIGHT: [i128; 8] = [0, 1, 2, 3, 4, 5, 6, 7];

// The upper row in y of each of its planes.
const UPPER: [u32; 6] = [1, 2, 6, 6, 2, 3];

// A crop, where the image has the part.
fn cropped(alloc: Global, image: &Image, part: [u32; 6]) -> Option<Image> {
    let out = Extent::new(part)?;
    if !is_part(&image.extent(), &out) {
        return None;
    }
    crop(alloc, image, &out).ok()
}

// Whether a crop of the block has these numbers.
fn crops(alloc: Global, part: [u32; 6], want: &[i128]) -> bool {
    match image_of(alloc, Kind8::U8, BLOCK, &EIGHT) {
        Some(image) => is_image(cropped(alloc, &image, part), part, STEPS, Kind8::U8, want),
        None => false,
    }
}

#[test]
fn a_crop_keeps_indices_and_numbers(rt: HostRuntime) {
    assert!(rt; crops(rt.alloc(), BLOCK, &EIGHT));
    assert!(rt; crops(rt.alloc(), UPPER, &[2, 3, 6, 7]));
}

// A threshold, where the image has the part.
fn thresholded(
    alloc: Global,
    image: &Image,
    (lo, hi): &(i64, i64),
    part: [u32; 6],
) -> Option<Image> {
    let out = Extent::new(part)?;
    if !is_part(&image.extent(), &out) {
        return None;
    }
    threshold(alloc, image, lo, hi, &out).ok()
}

// Whether a threshold of these numbers leaves on a part the wanted ones.
fn keeps(
    alloc: Global,
    bounds: &(i64, i64),
    (kind, whole, numbers): Side,
    part: [u32; 6],
    want: &[i128],
) -> bool {
    match image_of(alloc, kind, whole, numbers) {
        Some(image) => {
            let kept = thresholded(alloc, &image, bounds, part);
            is_image(kept, part, STEPS, kind, want)
        }
        None => false,
    }
}

#[test]
fn a_threshold_keeps_numbers_between_its_bounds(rt: HostRuntime) {
    let block: Side = (Kind8::I32, BLOCK, &EIGHT);
    // Both bounds belong to the range.
    assert!(rt; keeps(rt.alloc(), &(2, 5), block, BLOCK, &[0, 0, 2, 3, 4, 5, 0, 0]));
    assert!(rt; keeps(rt.alloc(), &(3, 6), block, UPPER, &[0, 3, 6, 0]));
    // No number lies between bounds out of order.
    assert!(rt; keeps(rt.alloc(), &(6, 3), block, UPPER, &[0, 0, 0, 0]));
}

// Four points along x.
const FOUR: [u32; 6] = [7, 10, 0, 0, 0, 0];

// The ends of 32 and of 64 bits, with a sign and without.
const LOW32: i128 = -(1 << 31);

const HIGH32: i128 = (1 << 31) - 1;

const MOST32: i128 = (1 << 32) - 1;

const LOW64: i128 = -(1 << 63);

const HIGH64: i128 = (1 << 63) - 1;

const MOST64: i128 = (1 << 64) - 1;

/// The type, the bounds of a threshold, four numbers, and what is left of them.
#[rattlefmt::skip]
const KEPT: [(Kind8, (i64, i64), [i128; 4], [i128; 4]); 17] = [
    // One past the end of a type selects nothing, where the remainder by 2^8 would select.
    (Kind8::I8, (-200, 5), [-128, -1, 5, 127], [-128, -1, 5, 0]),
    (Kind8::I8, (5, 200), [-128, -1, 5, 127], [0, 0, 5, 127]),
    (Kind8::I8, (-300, -129), [-128, -1, 5, 127], [0, 0, 0, 0]),
    (Kind8::U8, (-9, 1), [0, 1, 44, 255], [0, 1, 0, 0]),
    (Kind8::U8, (255, 300), [0, 1, 44, 255], [0, 0, 0, 255]),
    (Kind8::U8, (256, 300), [0, 1, 44, 255], [0, 0, 0, 0]),
    (Kind8::I16, (-40_000, -32_768), [-32_768, -1, 1, 32_767], [-32_768, 0, 0, 0]),
    (Kind8::I16, (32_767, 40_000), [-32_768, -1, 1, 32_767], [0, 0, 0, 32_767]),
    (Kind8::U16, (-9, 1), [0, 1, 2, 65_535], [0, 1, 0, 0]),
    (Kind8::U16, (65_535, 70_000), [0, 1, 2, 65_535], [0, 0, 0, 65_535]),
    (Kind8::I32, (i64::MIN, -1), [LOW32, -1, 1, HIGH32], [LOW32, -1, 0, 0]),
    (Kind8::I32, (1, i64::MAX), [LOW32, -1, 1, HIGH32], [0, 0, 1, HIGH32]),
    (Kind8::U32, (i64::MIN, 1), [0, 1, 2, MOST32], [0, 1, 0, 0]),
    (Kind8::U32, (2, i64::MAX), [0, 1, 2, MOST32], [0, 0, 2, MOST32]),
    (Kind8::I64, (i64::MIN, -1), [LOW64, -1, 1, HIGH64], [LOW64, -1, 0, 0]),
    (Kind8::I64, (1, i64::MAX), [LOW64, -1, 1, HIGH64], [0, 0, 1, HIGH64]),
    // Without a sign, 2^63 and above are greater than each bound.
    (Kind8::U64, (i64::MIN, i64::MAX), [1, HIGH64, HIGH64 + 1, MOST64], [1, HIGH64, 0, 0]),
];

#[test]
fn bounds_are_brought_to_the_ends_of_each_type(rt: HostRuntime) {
    for (kind, bounds, numbers, want) in &KEPT {
        let holds = keeps(rt.alloc(), bounds, (*kind, FOUR, numbers), FOUR, want);
        assert!(rt; holds, "{kind:?} {bounds:?} {numbers:?}");
    }
}

// Arithmetic, where both images have the part.
fn reckoned(alloc: Global, op: Op, a: &Image, b: &Image, part: [u32; 6]) -> Option<Image> {
    let out = Extent::new(part)?;
    if !is_part(&a.extent(), &out) || !is_part(&b.extent(), &out) {
        return None;
    }
    arith(alloc, a, b, op, &out).ok()
}

// Whether this is reckoned of an image and these numbers, on a part.
fn reckons_with(
    alloc: Global,
    op: Op,
    a: &Image,
    (kind, whole, numbers): Side,
    part: [u32; 6],
    want: &[i128],
) -> bool {
    match image_of(alloc, kind, whole, numbers) {
        Some(b) => {
            let image = reckoned(alloc, op, a, &b, part);
            is_image(image, part, STEPS, Kind8::I64, want)
        }
        None => false,
    }
}

// The same of the numbers of both.
fn reckons(
    alloc: Global,
    op: Op,
    (kind, whole, numbers): Side,
    b: Side,
    part: [u32; 6],
    want: &[i128],
) -> bool {
    match image_of(alloc, kind, whole, numbers) {
        Some(a) => reckons_with(alloc, op, &a, b, part, want),
        None => false,
    }
}

#[test]
fn arithmetic_goes_point_by_point(rt: HostRuntime) {
    let block: Side = (Kind8::U8, BLOCK, &EIGHT);
    // Three by one by two points from 0, 6, 2 on, so that they share four points with the block.
    let other: Side = (Kind8::I16, [0, 2, 6, 6, 2, 3], &[9, -1, 4, 9, 6, -7]);
    for (op, want) in &[
        (Op::Add, [1, 7, 12, 0]),
        (Op::Sub, [3, -1, 0, 14]),
        (Op::Min, [-1, 3, 6, -7]),
        (Op::Max, [2, 4, 6, 7]),
    ] {
        let holds = reckons(rt.alloc(), *op, block, other, UPPER, want);
        assert!(rt; holds, "{op:?}");
    }
}

/// Two numbers of a type, and what is reckoned of them.
#[rattlefmt::skip]
const CLAMPED: [(Op, (Kind8, i128), (Kind8, i128), i128); 5] = [
    // The row clamp-and-sample.
    (Op::Add, (Kind8::I64, HIGH64), (Kind8::I64, 1), HIGH64),
    (Op::Sub, (Kind8::I64, LOW64), (Kind8::U8, 1), LOW64),
    (Op::Add, (Kind8::U64, MOST64), (Kind8::U64, MOST64), HIGH64),
    (Op::Sub, (Kind8::U64, 0), (Kind8::U64, MOST64), LOW64),
    (Op::Min, (Kind8::U64, MOST64), (Kind8::U64, MOST64), HIGH64),
];

// One point.
const ONE: [u32; 6] = [0, 0, 0, 0, 0, 0];

// Whether a number is reckoned of one of each of two types.
fn clamps(
    alloc: Global,
    op: Op,
    (first, m): &(Kind8, i128),
    (second, n): &(Kind8, i128),
    want: i128,
) -> bool {
    let (a, b, want) = ([*m], [*n], [want]);
    reckons(alloc, op, (*first, ONE, &a), (*second, ONE, &b), ONE, &want)
}

#[test]
fn sums_are_clamped_at_both_ends(rt: HostRuntime) {
    for (op, a, b, want) in &CLAMPED {
        assert!(rt; clamps(rt.alloc(), *op, a, b, *want), "{op:?} {a:?} {b:?}");
    }
}

// Whether a rate along an axis is 1 to 1024.
fn is_axis_rate(rate: u32) -> bool
    ensures { IsTrue result ↔ IsAxisRate rate }
{
    1 <= rate && rate <= 1024
}

// Whether each of three is.
fn is_rate(rate: [u32; 3]) -> bool
    ensures { IsTrue result ↔ IsRate (rate_of rate) }
{
    is_axis_rate(rate[0]) && is_axis_rate(rate[1]) && is_axis_rate(rate[2])
}

// A step that is longer by a rate.
fn longer(step: &i128, rate: u32) -> i128
    requires step { IsStep step.now }
    requires rate { rate ≤ 1024 }
    ensures { result ≡ step.now *ℤ pos rate }
{
    *step * i128::from(rate)
}

// Steps between points that are longer by a rate.
fn wider(spacing: &[i128; 3], rate: [u32; 3]) -> [i128; 3]
    requires rate { IsRate (rate_of rate) }
    requires steps { IsSpacing (vector_of spacing.now) }
    ensures { vector_of result ≡ wider_steps (rate_of rate) (vector_of spacing.now) }
{
    let [x, y, z] = rate;
    [
        longer(&spacing[0], x),
        longer(&spacing[1], y),
        longer(&spacing[2], z),
    ]
}

// Whether the steps of an image may be longer by a rate.
fn are_longer_steps(image: &Image, rate: [u32; 3]) -> bool
    requires { IsRate (rate_of rate) }
    ensures { IsTrue result → IsSpacing (wider_steps (rate_of rate) image.now.spacing) }
{
    is_spacing(&wider(&image.spacing(), rate))
}

// All of a sample on an extent that its whole one keeps, where the steps may be longer.
fn sampled_on(alloc: Global, image: &Image, rate: [u32; 3], out: &Extent) -> Option<Image>
    requires rate { IsRate (rate_of rate) }
    requires part { out.now ≡ sampled (rate_of rate) image.now.extent }
{
    if !are_longer_steps(image, rate) {
        return None;
    }
    samples_ask_within_the_whole();
    sample(alloc, image, rate, out).ok()
}

// All of a sample, where each axis keeps an index.
fn sampled(alloc: Global, image: &Image, rate: [u32; 3]) -> Option<Image> {
    if !is_rate(rate) {
        return None;
    }
    let out = image.extent().sampled(rate)?;
    sampled_on(alloc, image, rate, &out)
}

// Whether a sample of these numbers has these bounds, steps and numbers.
fn samples(
    alloc: Global,
    rate: [u32; 3],
    (kind, whole, numbers): Side,
    bounds: [u32; 6],
    steps: [i128; 3],
    want: &[i128],
) -> bool {
    match image_of(alloc, kind, whole, numbers) {
        Some(image) => is_image(sampled(alloc, &image, rate), bounds, steps, kind, want),
        None => false,
    }
}

// Whether an axis of these bounds keeps no index.
fn keeps_none(bounds: [u32; 6], rate: [u32; 3]) -> bool {
    match Extent::new(bounds) {
        Some(whole) => is_rate(rate) && whole.sampled(rate).is_none(),
        None => false,
    }
}

// The row of clamp-and-sample.
#[test]
fn a_sample_takes_multiples_of_its_rate(rt: HostRuntime) {
    let row: Side = (Kind8::I16, [1, 5, 0, 0, 0, 0], &[-1, 2, 3, -4, 5]);
    let bounds = [1, 2, 0, 0, 0, 0];
    assert!(rt; samples(rt.alloc(), [2, 1, 1], row, bounds, [2, 2, 3], &[2, -4]));
}

// At 2, 6, 2 alone each index is a multiple; along x no index is one of 3.
#[test]
fn a_sample_of_a_block_has_its_axes(rt: HostRuntime) {
    let block: Side = (Kind8::U8, BLOCK, &EIGHT);
    let bounds = [1, 1, 2, 2, 1, 1];
    assert!(rt; samples(rt.alloc(), [2, 3, 2], block, bounds, [2, 6, 6], &[3]));
    assert!(rt; keeps_none(BLOCK, [3, 1, 1]));
}
