//! Sections of few cells, by hand from the table of docs/FORMATS-OF-FILTERS.md.

mod fit;
mod many;
mod table;

use crate::sheets::{Cells, Five, halves, sheet_at, wide};
use crate::shows::{has_counts, is_sheet};
use fit::is_fit;
use std::alloc::Global;
use viz_cells::section;
use viz_fraction::Form;
use viz_meaning::WorkStop;
use viz_sheet::{Places, Sheet};

/// The scalar above a level.
const fn above(level: i64) -> Form {
    Form {
        a: 0,
        b: 0,
        c: 0,
        q: 1,
        r: level,
    }
}

/// The plane where so much of x and y is 1.
const fn plane(a: i64, b: i64) -> Form {
    Form {
        a,
        b,
        c: 0,
        q: 0,
        r: 1,
    }
}

// These points, in half the room where all fit.
fn places_of(alloc: Global, points: &[Five]) -> Option<Places> {
    match halves(alloc, points) {
        Some(places) => Some(places),
        None => wide(alloc, points),
    }
}

/// The sheet of these points, named by their numbers, and cells.
fn sheet_in(alloc: Global, points: &[Five], cells: &Cells) -> Option<Sheet> {
    sheet_at(alloc, places_of(alloc, points), cells)
}

// The section, whatever comes of it.
fn tried(alloc: Global, form: &Form, sheet: &Sheet) -> Option<Result<Sheet, WorkStop>> {
    if !is_fit(sheet) {
        return None;
    }
    Some(section(alloc, form, sheet))
}

// The sheet of an answer.
fn found(answer: Option<Result<Sheet, WorkStop>>) -> Option<Sheet> {
    match answer {
        Some(Ok(sheet)) => Some(sheet),
        _ => None,
    }
}

// Whether an answer is that a number is wide, where memory sufficed.
fn is_wide(answer: Option<Result<Sheet, WorkStop>>) -> Option<bool> {
    match answer {
        Some(Ok(_)) => Some(false),
        Some(Err(WorkStop::TooWide)) => Some(true),
        _ => None,
    }
}

/// The section of a sheet.
fn cut(alloc: Global, form: &Form, sheet: Option<Sheet>) -> Option<Sheet> {
    match sheet {
        Some(sheet) => found(tried(alloc, form, &sheet)),
        None => None,
    }
}

/// Five points, of which 0 and 4 are inside.
const INSIDE: [Five; 5] = [
    [0, 0, 0, 1, 1],
    [4, 0, 0, -1, 1],
    [0, 4, 0, -1, 1],
    [0, 0, 4, -1, 1],
    [4, 4, 4, 1, 1],
];

// A vertex and a line of one side have no cell.
#[test]
fn cells_of_any_size_keep_their_order(rt: HostRuntime) {
    let cells = Cells::Any(&[
        (4, [0, 1, 2, 3]),
        (1, [4, 0, 0, 0]),
        (2, [3, 4, 0, 0]),
        (2, [1, 2, 0, 0]),
        (3, [1, 2, 4, 0]),
    ]);
    let found = cut(rt.alloc(), &above(0), sheet_in(rt.alloc(), &INSIDE, &cells));
    assert!(rt;
        is_sheet(
            found,
            &[&[0, 1], &[0, 2], &[0, 3], &[1, 4], &[2, 4], &[3, 4]],
            &[
                [2, 0, 0, 0, 1],
                [0, 2, 0, 0, 1],
                [0, 0, 2, 0, 1],
                [4, 2, 2, 0, 1],
                [2, 4, 2, 0, 1],
                [2, 2, 4, 0, 1],
            ],
            &[&[0, 1, 2], &[5], &[3, 4]],
        )
    );
}

/// The corners of a tetrahedron, of which 0 and 1 are inside.
const HALF: [Five; 4] = [
    [0, 0, 0, 1, 1],
    [4, 0, 0, 1, 1],
    [0, 4, 0, -1, 1],
    [0, 0, 4, -1, 1],
];

// Its section, of names of two leaves.
fn two(alloc: Global) -> Option<Sheet> {
    cut(
        alloc,
        &above(0),
        sheet_in(alloc, &HALF, &Cells::Tetrahedra(&[[0, 1, 2, 3]])),
    )
}

// The section of that with x at least 1: 12 and 13 are inside.
fn four(alloc: Global) -> Option<Sheet> {
    cut(alloc, &plane(1, 0), two(alloc))
}

// The section of that with y at least 1: the first two points are inside, the second one just so.
fn eight(alloc: Global) -> Option<Sheet> {
    cut(alloc, &plane(0, 1), four(alloc))
}

#[test]
fn a_section_is_cut_again(rt: HostRuntime) {
    assert!(rt;
        is_sheet(
            two(rt.alloc()),
            &[&[0, 2], &[0, 3], &[1, 2], &[1, 3]],
            &[
                [0, 2, 0, 0, 1],
                [0, 0, 2, 0, 1],
                [2, 2, 0, 0, 1],
                [2, 0, 2, 0, 1],
            ],
            &[&[0, 1, 3], &[0, 3, 2]],
        )
    );
    assert!(rt;
        is_sheet(
            four(rt.alloc()),
            &[&[0, 2, 1, 2], &[0, 2, 1, 3], &[0, 3, 1, 3]],
            &[[1, 2, 0, 0, 1], [1, 1, 1, 0, 1], [1, 0, 2, 0, 1]],
            &[&[1, 2], &[0, 1]],
        )
    );
    assert!(rt;
        is_sheet(
            eight(rt.alloc()),
            &[&[0, 2, 1, 3, 0, 3, 1, 3]],
            &[[1, 1, 1, 0, 1]],
            &[&[0]],
        )
    );
    // A vertex has no section, so its name of 8 leaves is no hindrance.
    assert!(rt; has_counts(cut(rt.alloc(), &above(0), eight(rt.alloc())), 0, 0));
}

// Whether the section at a level is refused as wide, where there is an answer.
fn is_refused(alloc: Global, level: i64, points: &[Five], cells: &Cells) -> Option<bool> {
    match sheet_in(alloc, points, cells) {
        Some(sheet) => is_wide(tried(alloc, &above(level), &sheet)),
        None => None,
    }
}

/// 2^40.
const LARGE: i128 = 1_099_511_627_776;

// A line from a scalar of 2^40 to one of -1 - 2^40, so far along x.
const fn across(x: i128) -> [Five; 2] {
    [[x, 0, 0, LARGE, 1], [x, 0, 0, -LARGE - 1, 1]]
}

// The level times the weight is past 2^120, or 2^57 less than it; a vertex has no cell.
#[test]
fn a_wide_value_is_refused(rt: HostRuntime) {
    for (weight, want) in &[(1 << 58, true), (1 << 57, false)] {
        let points = [[1, 0, 0, 0, *weight]];
        let found = is_refused(rt.alloc(), i64::MAX, &points, &Cells::Vertices(&[[0]]));
        assert!(rt; found == Some(*want), "{weight}");
    }
}

#[test]
fn a_wide_crossing_is_refused(rt: HostRuntime) {
    for (x, level, want) in &[
        // Weights of 2^40 and one more, times 2^80, and times 2^78.
        (1 << 80, 0, true),
        (1 << 78, 0, false),
        // Both inside, so that nothing is crossed.
        (1 << 80, i64::MIN, false),
        (1 << 78, i64::MIN, false),
    ] {
        let found = is_refused(rt.alloc(), *level, &across(*x), &Cells::Lines(&[[0, 1]]));
        assert!(rt; found == Some(*want), "{x} {level}");
    }
    // A number past 64 bits in a result.
    let line = sheet_in(rt.alloc(), &across(1 << 78), &Cells::Lines(&[[1, 0]]));
    let found = cut(rt.alloc(), &above(0), line);
    assert!(rt; is_sheet(found, &[&[0, 1]], &[[1 << 78, 0, 0, 0, 1]], &[&[0]]));
}
