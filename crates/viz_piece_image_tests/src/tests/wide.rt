//! A contour that is wide in its last layer alone.

use crate::tests::images::image_with;
use crate::tests::pieces::sections_of;
use std::alloc::Global;
use std::test::Fail;
use viz_column::Kind8;
use viz_dataset::Image;
use viz_fraction::Form;
use viz_meaning::WorkStop;
use viz_mesh_parts::section_part;
use viz_parts::Part;
use viz_piece_plain::{is_fit_part, of_mesh};

/// What a piece answers.
#[derive(Clone, Copy, Debug, PartialEq, Eq)]
enum Answer {
    Cells(usize),
    TooWide,
    Other,
}

/// The number 2^58 + 1 in the lowest plane, and 2^64 - 1 in the highest one.
const LOW: i128 = 288_230_376_151_711_745;

const HIGH: i128 = 18_446_744_073_709_551_615;

/// The contour at 2^57.
const CONTOUR: Form = Form {
    a: 0,
    b: 0,
    c: 0,
    q: 1,
    r: 144_115_188_075_855_872,
};

/// The plane through the middles of the cubes.
const CUT: Form = Form {
    a: 2,
    b: 0,
    c: 0,
    q: 0,
    r: 1,
};

// How many cells a part has.
fn cells_in(part: &Part) -> usize {
    let mut count: usize = 0;
    if let Part::Mesh(sheets) = part {
        for sheet in sheets {
            count = count.saturating_add(sheet.sheet().cell_count());
        }
    }
    count
}

// What a piece of the contour answers.
fn answer_of(alloc: Global, image: &Image, p: u32, n: u32, ghosts: u32) -> Answer {
    if p >= n {
        return Answer::Other;
    }
    told(sections_of(alloc, image, p, n, ghosts, &[CONTOUR]))
}

// The same in short.
fn told(made: Result<Part, WorkStop>) -> Answer {
    match made {
        Ok(part) => Answer::Cells(cells_in(&part)),
        Err(WorkStop::TooWide) => Answer::TooWide,
        Err(WorkStop::Memory) => Answer::Other,
    }
}

// What the cut of a piece of the contour answers, where that has a part.
fn cut_of(alloc: Global, image: &Image, p: u32, n: u32) -> Result<Answer, Fail> {
    if p >= n {
        return Err("a piece of some")?;
    }
    let part = sections_of(alloc, image, p, n, 0, &[CONTOUR])?;
    match of_mesh(part) {
        Some(part) if is_fit_part(&part) => Ok(told(section_part(alloc, &part, &[CUT]))),
        _ => Err("a part that fits")?,
    }
}

// Four cubes, one above the other.
fn column(alloc: Global) -> Result<Image, Fail> {
    let mut numbers = [0; 20];
    numbers[3] = LOW;
    numbers[19] = HIGH;
    image_with(alloc, Kind8::U64, [0, 1, 0, 1, 0, 4], &numbers)
}

#[test]
fn the_cut_of_a_narrow_contour_may_be_too_wide(rt: HostRuntime) -> Result<(), Fail> {
    let image = column(rt.alloc())?;
    for (p, want) in [(0, Answer::TooWide), (1, Answer::Cells(0))] {
        assert_eq!(rt; cut_of(rt.alloc(), &image, p, 4)?, want, "{p}");
    }
    Ok(())
}

#[test]
fn a_piece_is_too_wide_by_its_own_block(rt: HostRuntime) -> Result<(), Fail> {
    let image = column(rt.alloc())?;
    for (p, n, ghosts, want) in [
        (0, 1, 0, Answer::TooWide),
        (0, 4, 0, Answer::Cells(2)),
        (1, 4, 0, Answer::Cells(0)),
        (2, 4, 0, Answer::Cells(0)),
        (3, 4, 0, Answer::TooWide),
        // The last layer as a ghost layer.
        (0, 4, 1, Answer::Cells(2)),
        (1, 4, 1, Answer::Cells(2)),
        (2, 4, 1, Answer::TooWide),
        (1, 4, 2, Answer::TooWide),
        // More pieces than layers: piece 0 has none, and piece 6 the last.
        (0, 7, 2, Answer::Cells(0)),
        (6, 7, 0, Answer::TooWide),
    ] {
        let found = answer_of(rt.alloc(), &image, p, n, ghosts);
        assert_eq!(rt; found, want, "{p} {n} {ghosts}");
    }
    Ok(())
}
