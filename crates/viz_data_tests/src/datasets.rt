//! Points and parts of images, by hand.

ghost use Rattle.std.specs.Prelude.{◌↔◌, IsTrue};
ghost use Rattle.viz_extent.specs.Parts.{IsPart};

use std::alloc::{AllocError, Global};
use std::test::Fail;
use viz_column::{Column, Number};
use viz_dataset::{Dataset, Image, Info, has_point, is_origin, is_spacing};
use viz_extent::Extent;
use viz_fraction::Point5;

/// So many billionths make 1.
const ONE: i128 = 1_000_000_000;

// The numbers 0, 1, 2 .. of a type, so many of them, as far as the type has them.
fn counted<T: Number>(alloc: Global, count: u64) -> Result<Column, AllocError> {
    let mut numbers = Vec::new(alloc);
    for n in 0..count {
        numbers.push(T::of_whole(i128::from(n)).unwrap_or(T::zero()))?;
    }
    Ok(Column::of(numbers))
}

/// The image of a column, where there is one.
pub(super) fn image_of(
    extent: Extent,
    origin: [i128; 3],
    spacing: [i128; 3],
    column: Column,
) -> Option<Image> {
    if !is_origin(&origin) || !is_spacing(&spacing) || column.len() != extent.count() {
        return None;
    }
    Some(Image::new(extent, origin, spacing, column))
}

// An image whose numbers are 0, 1, 2 .. in their order.
fn counted_image<T: Number>(
    alloc: Global,
    bounds: [u32; 6],
    origin: [i128; 3],
    spacing: [i128; 3],
) -> Result<Image, Fail> {
    let extent = Extent::new(bounds).ok_or("an extent")?;
    let column = counted::<T>(alloc, extent.count())?;
    let image = image_of(extent, origin, spacing, column).ok_or("an image")?;
    Ok(image)
}

// A point of an image, where there is one.
fn point_of(image: &Image, [i, j, k]: [u32; 3]) -> Option<Point5> {
    if !has_point(&image.extent(), i, j, k) {
        return None;
    }
    Some(image.point(i, j, k))
}

// Whether a part lies in an extent.
fn is_part(whole: &Extent, part: &Extent) -> bool
    ensures { IsTrue result ↔ IsPart whole.now part.now }
{
    whole.contains(part)
}

// A part of an image, where there is one.
fn part_of(alloc: Global, image: &Image, bounds: [u32; 6]) -> Result<Image, Fail> {
    let part = Extent::new(bounds).ok_or("a part")?;
    if !is_part(&image.extent(), &part) {
        return Err("a part within")?;
    }
    let small = image.restrict(alloc, &part)?;
    Ok(small)
}

/// The farthest origin along an axis.
const FAR: i128 = 1_000_000_000 * 1_000_000_000 * ONE;

/// The widest spacing.
const WIDE: i128 = ONE * ONE;

// Whether an origin and a spacing of a row may be those of an image, as the row says.
fn may_be((origin, spacing, may): &([i128; 3], [i128; 3], (bool, bool))) -> bool {
    (is_origin(origin), is_spacing(spacing)) == *may
}

/// Origins and spacings, and whether either may be that of an image.
const LIMITS: [([i128; 3], [i128; 3], (bool, bool)); 8] = [
    ([0, 0, 0], [1, 1, 1], (true, true)),
    ([FAR, -FAR, FAR], [WIDE, WIDE, WIDE], (true, true)),
    ([FAR + 1, 0, 0], [WIDE + 1, 1, 1], (false, false)),
    ([0, -FAR - 1, 0], [1, WIDE + 1, 1], (false, false)),
    ([0, 0, FAR + 1], [1, 1, WIDE + 1], (false, false)),
    ([-1, -1, -1], [0, 1, 1], (true, false)),
    ([-1, -1, -1], [1, 0, 1], (true, false)),
    ([-1, -1, -1], [1, 1, -1], (true, false)),
];

#[test]
fn limits_of_origins_and_spacings(rt: HostRuntime) {
    for row in &LIMITS {
        assert!(rt; may_be(row), "{row:?}");
    }
}

/// Where a point of an image lies.
#[derive(Clone, Copy, Debug)]
struct Lying {
    bounds: [u32; 6],
    origin: [i128; 3],
    spacing: [i128; 3],
    place: [u32; 3],
    want: [i128; 5],
}

/// Points by hand.
const LYING: [Lying; 6] = [
    // One point at 0.
    Lying {
        bounds: [0; 6],
        origin: [0; 3],
        spacing: [ONE; 3],
        place: [0, 0, 0],
        want: [0, 0, 0, 0, 1],
    },
    // Whole numbers: x = 1 + 2 i, y = -3 + j, z = 10 k; the last of six numbers.
    Lying {
        bounds: [0, 2, 0, 1, 0, 0],
        origin: [ONE, -3 * ONE, 0],
        spacing: [2 * ONE, ONE, 10 * ONE],
        place: [2, 1, 0],
        want: [5, -2, 0, 5, 1],
    },
    // Indices of an extent that begins elsewhere count from 0 all the same: x = i / 2,
    // y = 7 - 1 / 4 + j, z = k; the second of two numbers.
    Lying {
        bounds: [4, 5, 3, 3, 9, 9],
        origin: [0, 6_750_000_000, 0],
        spacing: [ONE / 2, ONE, ONE],
        place: [5, 3, 9],
        want: [10, 39, 36, 4, 4],
    },
    // Whole numbers of units that no 64 bits of billionths hold, and one axis that isn't whole.
    Lying {
        bounds: [0; 6],
        origin: [ONE * ONE * ONE, -7 * ONE * ONE * ONE / 10, 0],
        spacing: [ONE; 3],
        place: [0, 0, 0],
        want: [ONE * ONE, -700_000_000_000_000_000, 0, 0, 1],
    },
    Lying {
        bounds: [3, 3, 0, 0, 0, 0],
        origin: [0, 0, -ONE / 4],
        spacing: [ONE; 3],
        place: [3, 0, 0],
        want: [12, 0, -1, 0, 4],
    },
    // The least spacing.
    Lying {
        bounds: [0, 1, 0, 0, 0, 0],
        origin: [-ONE / 2, 0, 0],
        spacing: [1, ONE, ONE],
        place: [1, 0, 0],
        want: [-499_999_999, 0, 0, ONE, ONE],
    },
];

/// The five numbers of a point.
pub(super) fn numbers_of(p: &Point5) -> [i128; 5] {
    [p.x(), p.y(), p.z(), p.s(), p.w()]
}

// Whether a point lies where the row says.
fn lies(alloc: Global, row: &Lying) -> Result<bool, Fail> {
    let image = counted_image::<i16>(alloc, row.bounds, row.origin, row.spacing)?;
    match point_of(&image, row.place) {
        Some(p) => Ok(numbers_of(&p) == row.want),
        None => Ok(false),
    }
}

#[test]
fn points_lie_at_origin_and_spacing(rt: HostRuntime) -> Result<(), Fail> {
    for row in &LYING {
        assert!(rt; lies(rt.alloc(), row)?, "{row:?}");
    }
    Ok(())
}

// The bounds, the origin and the spacing of an image.
fn header_of(image: &Image) -> ([u32; 6], [i128; 3], [i128; 3]) {
    (image.extent().bounds(), image.origin(), image.spacing())
}

// Whether an image has these bounds, and the origin and the spacing of the image below.
fn stays(image: &Image, bounds: [u32; 6]) -> bool {
    header_of(image) == (bounds, [ONE, 2, 3], [4, 5, 6])
}

// Whether a column is of a type and has these numbers.
fn has_numbers<T: Number>(alloc: Global, column: &Column, want: &[i128]) -> Result<bool, Fail> {
    let mut wholes = Vec::new(alloc);
    for n in column.numbers::<T>().unwrap_or(&[]) {
        wholes.push(n.whole())?;
    }
    Ok(column.kind() == T::kind() && wholes.as_slice() == want)
}

// Whether these are left of an image whose numbers are 0, 1, 2 .. on a part of its extent.
fn is_left<T: Number>(alloc: Global, bounds: [u32; 6], want: &[i128]) -> Result<bool, Fail> {
    // Three by two by two points: 0 1 2, 3 4 5, then 6 7 8, 9 10 11.
    let image = counted_image::<T>(alloc, [1, 3, 5, 6, 2, 3], [ONE, 2, 3], [4, 5, 6])?;
    let small = part_of(alloc, &image, bounds)?;
    if !stays(&small, bounds) {
        return Ok(false);
    }
    has_numbers::<T>(alloc, &small.into_column(), want)
}

#[test]
fn a_part_of_small_numbers_has_the_same(rt: HostRuntime) -> Result<(), Fail> {
    let alloc = rt.alloc();
    let all = [0, 1, 2, 3, 4, 5, 6, 7, 8, 9, 10, 11];
    assert!(rt; is_left::<i8>(alloc, [1, 3, 5, 6, 2, 3], &all)?);
    assert!(rt; is_left::<u8>(alloc, [1, 1, 5, 5, 2, 2], &[0])?);
    assert!(rt; is_left::<i16>(alloc, [3, 3, 6, 6, 3, 3], &[11])?);
    assert!(rt; is_left::<u16>(alloc, [2, 3, 5, 5, 2, 3], &[1, 2, 7, 8])?);
    Ok(())
}

#[test]
fn a_part_of_large_numbers_has_the_same(rt: HostRuntime) -> Result<(), Fail> {
    let alloc = rt.alloc();
    assert!(rt; is_left::<i32>(alloc, [2, 2, 5, 6, 2, 3], &[1, 4, 7, 10])?);
    assert!(rt; is_left::<u32>(alloc, [1, 2, 6, 6, 2, 3], &[3, 4, 9, 10])?);
    assert!(rt; is_left::<i64>(alloc, [1, 3, 5, 6, 3, 3], &[6, 7, 8, 9, 10, 11])?);
    assert!(rt; is_left::<u64>(alloc, [3, 3, 5, 6, 2, 2], &[2, 5])?);
    Ok(())
}

// Whether these are some numbers, with these ends.
fn has_ends(numbers: &[i32], first: i32, last: i32) -> bool {
    let count = numbers.len();
    count > 0 && numbers[0] == first && numbers[count - 1] == last
}

// A row of 200,000 points and its second half.
#[test]
fn a_long_row_is_halved(rt: HostRuntime) -> Result<(), Fail> {
    let alloc = rt.alloc();
    let image = counted_image::<i32>(alloc, [0, 199_999, 0, 0, 0, 0], [0; 3], [ONE; 3])?;
    let half = part_of(alloc, &image, [100_000, 199_999, 0, 0, 0, 0])?;
    let numbers = half.column().numbers::<i32>().unwrap_or(&[]);
    assert!(rt; numbers.len() == 100_000 && has_ends(numbers, 100_000, 199_999));
    Ok(())
}

// Other numbers on the extent of an image, of which there are as many.
fn renumbered(image: &Image, column: Column) -> Result<Image, Fail> {
    if column.len() != image.column().len() {
        return Err("as many numbers")?;
    }
    Ok(image.with_column(column))
}

// Two points with the numbers 0 and 1 of 64 bits, on the extent of an image of other numbers.
fn other(alloc: Global) -> Result<Image, Fail> {
    let image = counted_image::<u8>(alloc, [1, 2, 0, 0, 2, 2], [ONE, 2, 3], [4, 5, 6])?;
    let column = counted::<i64>(alloc, 2)?;
    renumbered(&image, column)
}

// Whether the lowest corner of an image lies at this position.
fn has_corner(image: &Image, want: [i128; 3]) -> bool {
    image.corner() == want
}

#[test]
fn other_numbers_stand_at_the_same_points(rt: HostRuntime) -> Result<(), Fail> {
    let other = other(rt.alloc())?;
    assert!(rt; stays(&other, [1, 2, 0, 0, 2, 2]));
    assert!(rt; has_corner(&other, [1_000_000_004, 2, 15]));
    Ok(())
}

// What a header says of an image.
fn info_of(image: &Image) -> Info {
    Info::Image {
        whole: image.extent(),
        origin: image.origin(),
        spacing: image.spacing(),
    }
}

#[test]
fn an_image_is_a_dataset_with_its_header(rt: HostRuntime) -> Result<(), Fail> {
    let other = other(rt.alloc())?;
    assert!(rt; matches!(info_of(&other), Info::Image { .. }));
    let Dataset::Image(again) = Dataset::Image(other) else {
        return Err("an image")?;
    };
    assert!(rt; has_numbers::<i64>(rt.alloc(), again.column(), &[0, 1])?);
    Ok(())
}
