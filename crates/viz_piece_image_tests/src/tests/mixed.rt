//! Mixed cubes, cube by cube.

use crate::tests::images::{image_with, mixed_numbers};
use crate::tests::pieces::slab_of;
use std::alloc::{AllocError, Global};
use std::process::Abort;
use std::test::Fail;
use viz_column::Kind8;
use viz_dataset::Image;
use viz_extent::Extent;
use viz_lanes::Bits;
use viz_mixed::mixed;

// The bits as a list.
fn list(alloc: Global, bits: &Bits) -> Result<Vec<bool>, AllocError> {
    let mut all = Vec::new(alloc);
    for i in 0..bits.len() {
        all.push(bits.get(i))?;
    }
    Ok(all)
}

// Whether the number of a point is at least a level.
fn is_inside(extent: &Extent, numbers: &[i128], level: i64, (i, j, k): (u32, u32, u32)) -> bool {
    let [x0, x1, y0, y1, z0, z1] = extent.bounds();
    if i < x0 || i > x1 || j < y0 || j > y1 || k < z0 || k > z1 {
        return false;
    }
    let index = extent.index_of(i, j, k) as usize;
    match numbers.get(index) {
        Some(number) => *number >= i128::from(level),
        None => false,
    }
}

// How many of a cube's eight corners are inside.
fn count_inside(extent: &Extent, numbers: &[i128], level: i64, (i, j, k): (u32, u32, u32)) -> u32 {
    let mut count: u32 = 0;
    for x in [i, i.saturating_add(1)] {
        for y in [j, j.saturating_add(1)] {
            for z in [k, k.saturating_add(1)] {
                if is_inside(extent, numbers, level, (x, y, z)) {
                    count = count.saturating_add(1);
                }
            }
        }
    }
    count
}

// Of each cube, whether some corners are inside and some are not.
fn plain(
    alloc: Global,
    extent: &Extent,
    numbers: &[i128],
    level: i64,
) -> Result<Vec<bool>, AllocError> {
    let [x0, x1, y0, y1, z0, z1] = extent.bounds();
    let mut all = Vec::new(alloc);
    for k in z0..z1 {
        for j in y0..y1 {
            for i in x0..x1 {
                let count = count_inside(extent, numbers, level, (i, j, k));
                all.push(count > 0 && count < 8)?;
            }
        }
    }
    Ok(all)
}

// The mixed cubes of an image at a level are these.
fn mixes(
    rt: &impl Abort,
    alloc: Global,
    (kind, bounds, level): (Kind8, [u32; 6], i64),
    numbers: &[i128],
    want: &[bool],
) -> Result<(), Fail> {
    let image = image_with(alloc, kind, bounds, numbers)?;
    let bits = mixed(alloc, &image, &level)?;
    let found = list(alloc, &bits)?;
    assert_eq!(rt; found.as_slice(), want, "{bounds:?} {level}");
    Ok(())
}

/// One cube of points, and four of them, one above the other.
const CUBE: [u32; 6] = [0, 1, 0, 1, 0, 1];

const COLUMN: [u32; 6] = [0, 1, 0, 1, 0, 4];

/// The level 2^57.
const LEVEL: i64 = 144_115_188_075_855_872;

// Numbers of four layers, of which the lowest and the highest one have a corner inside.
fn four() -> [i128; 20] {
    let mut numbers = [0; 20];
    numbers[3] = 288_230_376_151_711_745;
    numbers[19] = 18_446_744_073_709_551_615;
    numbers
}

#[test]
fn a_cube_with_corners_at_both_sides_is_mixed(rt: HostRuntime) -> Result<(), Fail> {
    let alloc = rt.alloc();
    let corner = [0, 0, 0, 0, 0, 0, 0, 9];
    for (level, want) in [(5, true), (9, true), (10, false), (0, false), (1, true)] {
        mixes(&rt, alloc, (Kind8::I32, CUBE, level), &corner, &[want])?;
    }
    mixes(
        &rt,
        alloc,
        (Kind8::U64, COLUMN, LEVEL),
        &four(),
        &[true, false, false, true],
    )?;
    // Levels that 8 bits without a sign can't hold.
    for level in [-1, 300] {
        mixes(&rt, alloc, (Kind8::U8, CUBE, level), &corner, &[false])?;
    }
    Ok(())
}

// The mixed cubes of the block that piece `p` of `n` asks for, at the level of the row above.
fn mixed_in(
    alloc: Global,
    image: &Image,
    (p, n, ghosts): (u32, u32, u32),
) -> Result<Vec<bool>, Fail> {
    if p >= n {
        return Err("a piece of some")?;
    }
    let slab = slab_of(alloc, image, p, n, ghosts)?;
    let bits = mixed(alloc, &slab, &LEVEL)?;
    Ok(list(alloc, &bits)?)
}

#[test]
fn a_piece_has_the_mixed_cubes_of_its_block(rt: HostRuntime) -> Result<(), Fail> {
    let alloc = rt.alloc();
    let image = image_with(alloc, Kind8::U64, COLUMN, &four())?;
    for (asked, want) in [
        ((0, 1, 0), [true, false, false, true].as_slice()),
        ((0, 4, 0), [true].as_slice()),
        ((1, 4, 0), [false].as_slice()),
        ((2, 4, 1), [false, false, true].as_slice()),
        ((3, 4, 2), [false, false, true].as_slice()),
        // More pieces than layers: the lowest plane alone.
        ((0, 7, 2), [].as_slice()),
    ] {
        let found = mixed_in(alloc, &image, asked)?;
        assert_eq!(rt; found.as_slice(), want, "{asked:?}");
    }
    Ok(())
}

#[test]
fn cubes_are_mixed_as_one_by_one(rt: HostRuntime) -> Result<(), Fail> {
    let alloc = rt.alloc();
    for (bounds, kind, level) in [
        // Rows shorter than a word, of a word of cubes, and longer.
        ([0, 4, 0, 3, 0, 2], Kind8::I8, 50),
        ([2, 66, 1, 3, 5, 7], Kind8::U16, 30),
        ([0, 64, 0, 2, 0, 1], Kind8::I64, 90),
        ([0, 69, 0, 2, 0, 2], Kind8::U32, 95),
        ([7, 137, 0, 1, 3, 4], Kind8::I16, 2),
        // No cubes.
        ([0, 3, 0, 3, 2, 2], Kind8::U8, 50),
    ] {
        let extent = Extent::new(bounds).ok_or("an extent")?;
        let numbers = mixed_numbers(alloc, bounds)?;
        let want = plain(alloc, &extent, &numbers, level)?;
        mixes(&rt, alloc, (kind, bounds, level), &numbers, &want)?;
    }
    Ok(())
}
