//! Sections of several sheets by several forms, counted by hand.

use super::fit::are_fit;
use super::{above, across, plane, sheet_in};
use crate::sheets::{Cells, Five, two};
use crate::shows::has_point;
use std::alloc::Global;
use viz_cells::sections;
use viz_fraction::Form;
use viz_meaning::WorkStop;
use viz_sheet::{Mesh, Sheet};

// The sections, whatever comes of them.
fn tried_of(alloc: Global, forms: &[Form], sheets: &[Sheet]) -> Option<Result<Mesh, WorkStop>> {
    if !are_fit(sheets) {
        return None;
    }
    Some(sections(alloc, forms, sheets))
}

// The same where there are sheets.
fn tried(
    alloc: Global,
    forms: &[Form],
    sheets: Option<Vec<Sheet>>,
) -> Option<Result<Mesh, WorkStop>> {
    match sheets {
        Some(sheets) => tried_of(alloc, forms, &sheets),
        None => None,
    }
}

// A line along x from 0 to 4 with these scalars at its ends.
fn line(alloc: Global, from: i128, to: i128) -> Option<Sheet> {
    let points = [[0, 0, 0, from, 1], [4, 0, 0, to, 1]];
    sheet_in(alloc, &points, &Cells::Lines(&[[0, 1]]))
}

// Whether a mesh has sheets of one point each, these.
fn has_points(mesh: &Mesh, points: &[Five]) -> bool {
    for (sheet, five) in mesh.sheets().iter().zip(points) {
        if sheet.point_count() != 1 || !has_point(sheet, 0, five) {
            return false;
        }
    }
    mesh.sheets().len() == points.len()
}

// Whether the sections of sheets have one point each, these.
fn cuts(alloc: Global, forms: &[Form], sheets: Option<Vec<Sheet>>, points: &[Five]) -> bool {
    match tried(alloc, forms, sheets) {
        Some(Ok(mesh)) => has_points(&mesh, points),
        _ => false,
    }
}

// Two lines, of which the second goes down.
fn lines(alloc: Global) -> Option<Vec<Sheet>> {
    two(alloc, line(alloc, -1, 1), line(alloc, 3, -1))
}

// Scalar 0 half way, and at three quarters; then x = 1, with the scalars -1/2 and 2.
#[test]
fn all_of_a_form_come_before_the_next_form(rt: HostRuntime) {
    let points = [
        [2, 0, 0, 0, 1],
        [3, 0, 0, 0, 1],
        [2, 0, 0, -1, 2],
        [1, 0, 0, 2, 1],
    ];
    let forms = [above(0), plane(1, 0)];
    assert!(rt; cuts(rt.alloc(), &forms, lines(rt.alloc()), &points));
    // No form or no sheet has no section.
    assert!(rt; cuts(rt.alloc(), &[], lines(rt.alloc()), &[]));
    assert!(rt; cuts(rt.alloc(), &forms, Some(Vec::new(rt.alloc())), &[]));
}

// Weights of 2^40 and one more, times 2^80.
#[test]
fn one_wide_sheet_refuses_all(rt: HostRuntime) {
    let wide = sheet_in(rt.alloc(), &across(1 << 80), &Cells::Lines(&[[0, 1]]));
    let sheets = two(rt.alloc(), line(rt.alloc(), -1, 1), wide);
    let answer = tried(rt.alloc(), &[above(0)], sheets);
    assert!(rt; matches!(answer, Some(Err(WorkStop::TooWide))));
}
