//! Slabs of images of 1 to 7 planes, 1 to 9 of them, and put together again.

use crate::all_slabs;
use crate::tests::plain::begin;
use std::alloc::{AllocError, Global};
use std::process::Abort;
use std::test::Fail;
use viz_column::{Column, Kind8};
use viz_dataset::{Dataset, Image, is_origin, is_spacing};
use viz_extent::Extent;
use viz_parts::Part;
use viz_piece_stitch::stitch;

/// All types of numbers.
const KINDS: [Kind8; 8] = [
    Kind8::I8,
    Kind8::U8,
    Kind8::I16,
    Kind8::U16,
    Kind8::I32,
    Kind8::U32,
    Kind8::I64,
    Kind8::U64,
];

/// Where the images lie, and how far their points are apart.
const ORIGIN: [i128; 3] = [-7, 5, 1_000_000_000];

const SPACING: [i128; 3] = [1, 2_000_000_000, 30];

// How many numbers a plane has, and which plane is the lowest one.
const PLANE: u64 = 6;

const LOWEST: u32 = 5;

// The bounds of these planes: 3 x 2 points each.
fn bounds(first: u32, next: u32) -> [u32; 6] {
    let z0 = LOWEST.saturating_add(first);
    let z1 = LOWEST.saturating_add(next).saturating_sub(1);
    [2, 4, 0, 1, z0, z1]
}

// The number that stands at an index of the whole: below 101, so each type has it.
fn number(index: u64) -> i128 {
    i128::from(index % 101 * 37 % 101)
}

// A column of so many numbers.
fn counted(alloc: Global, kind: Kind8, count: u64) -> Result<Column, AllocError> {
    let mut column = Column::new(alloc, kind);
    for i in 0..count {
        push_if(&mut column, number(i))?;
    }
    Ok(column)
}

// Adds a number that fits.
fn push_if(column: &mut Column, n: i128) -> Result<(), AllocError> {
    if column.kind().fits(n) {
        column.push(n)?;
    }
    Ok(())
}

// The image of a column, where there is one.
fn image_of(extent: Extent, column: Column) -> Option<Image> {
    if !is_origin(&ORIGIN) || !is_spacing(&SPACING) || column.len() != extent.count() {
        return None;
    }
    Some(Image::new(extent, ORIGIN, SPACING, column))
}

// The image of so many planes.
fn whole_image(alloc: Global, kind: Kind8, planes: u32) -> Result<Image, Fail> {
    let extent = Extent::new(bounds(0, planes)).ok_or("an extent")?;
    let column = counted(alloc, kind, extent.count())?;
    let image = image_of(extent, column).ok_or("an image")?;
    Ok(image)
}

// The image has these planes, counted from the lowest one of the whole, with all their numbers.
fn shows_planes(rt: &impl Abort, image: &Image, kind: Kind8, first: u32, next: u32) {
    assert_eq!(rt; image.extent().bounds(), bounds(first, next));
    assert_eq!(rt; image.origin(), ORIGIN);
    assert_eq!(rt; image.spacing(), SPACING);
    let column = image.column();
    assert!(rt; column.kind() == kind);
    assert_eq!(rt; column.len(), u64::from(next.saturating_sub(first)) * PLANE);
    let skipped = u64::from(first) * PLANE;
    for i in 0..column.len() {
        assert_eq!(rt;
            column.get(i),
            number(skipped.saturating_add(i)),
            "{first} {next} {i}"
        );
    }
}

// The parts are those of the slabs that have planes, in turn.
fn shows_slabs(rt: &impl Abort, parts: &[Part], kind: Kind8, planes: u32, n: u32) {
    let mut rest = parts.iter();
    for p in 0..n {
        let (first, next) = (begin(planes, p, n), begin(planes, p.saturating_add(1), n));
        if first < next {
            match rest.next() {
                Some(Part::Image(image)) => shows_planes(rt, image, kind, first, next),
                _ => assert!(rt; false, "a slab {planes} {p} {n}"),
            }
        }
    }
    assert!(rt; rest.next().is_none(), "no more slabs {planes} {n}");
}

#[test]
fn slabs_stitched_are_the_image(rt: HostRuntime) -> Result<(), Fail> {
    for kind in KINDS {
        for planes in 1..8 {
            let whole = whole_image(rt.alloc(), kind, planes)?;
            for n in 1..10 {
                let parts = all_slabs(rt.alloc(), &whole, n)?;
                shows_slabs(&rt, &parts, kind, planes, n);
                match stitch(rt.alloc(), parts)? {
                    Dataset::Image(image) => shows_planes(&rt, &image, kind, 0, planes),
                    Dataset::Mesh(_) => assert!(rt; false, "an image {planes} {n}"),
                }
            }
        }
    }
    Ok(())
}
