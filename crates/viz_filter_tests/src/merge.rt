//! Merges of few cells, by hand.

use crate::sheets::{Cells, Five, halves, one, sheet_at, sheet_by, two};
use crate::shows::{has_counts, is_sheet, only};
use std::alloc::Global;
use viz_merge::merge;
use viz_sheet::Sheet;

// The only sheet of a merge.
fn merged(alloc: Global, sheets: Option<Vec<Sheet>>) -> Option<Sheet> {
    match sheets {
        Some(sheets) => only(merge(alloc, &sheets).ok()),
        None => None,
    }
}

/// Two triangles on one side; the second half of it is another point with another scalar.
const TWO: [Five; 4] = [
    [0, 0, 0, 1, 1],
    [1, 0, 0, 2, 2],
    [0, 1, 0, 3, 1],
    [3, 0, 0, 4, 6],
];

// 1 / 2 twice, with the scalars 1 and 2 / 3; the points of the second sheet are known.
#[test]
fn a_group_keeps_its_first_point(rt: HostRuntime) {
    let first = sheet_by(rt.alloc(), &TWO, &Cells::Triangles(&[[0, 1, 2], [2, 3, 0]]));
    let second = sheet_by(rt.alloc(), &[[0, 2, 0, 9, 2]], &Cells::Vertices(&[[0]]));
    let found = merged(rt.alloc(), two(rt.alloc(), first, second));
    assert!(rt;
        is_sheet(
            found,
            &[&[0], &[1], &[2]],
            &[[0, 0, 0, 1, 1], [1, 0, 0, 2, 2], [0, 1, 0, 3, 1]],
            &[&[0, 1, 2], &[2, 1, 0], &[2]],
        )
    );
}

/// 2^70.
const FAR: i128 = 1_180_591_620_717_411_303_424;

// Two points in half the room, and behind them the second place again and one past 64 bits.
#[test]
fn halves_and_wide_points_are_merged(rt: HostRuntime) {
    let half = halves(rt.alloc(), &[[0, 0, 0, 1, 1], [1, 0, 0, 2, 2]]);
    let first = sheet_at(rt.alloc(), half, &Cells::Lines(&[[0, 1]]));
    let wide = [[1, 0, 0, 3, 2], [FAR, 0, 0, 4, 1]];
    let second = sheet_by(rt.alloc(), &wide, &Cells::Lines(&[[1, 0]]));
    let found = merged(rt.alloc(), two(rt.alloc(), first, second));
    assert!(rt;
        is_sheet(
            found,
            &[&[0], &[1], &[2]],
            &[[0, 0, 0, 1, 1], [1, 0, 0, 2, 2], [FAR, 0, 0, 4, 1]],
            &[&[0, 1], &[2, 1]],
        )
    );
}

/// The points of a fan of six triangles.
const FAN: [Five; 7] = [
    [5, 5, 5, 0, 9],
    [9, 5, 5, 0, 9],
    [5, 9, 5, 0, 9],
    [5, 5, 9, 0, 9],
    [1, 1, 0, 0, 1],
    [1, 0, 1, 0, 1],
    [0, 1, 1, 0, 1],
];

/// Its triangles.
const BLADES: [[u32; 3]; 6] = [
    [0, 1, 4],
    [0, 4, 2],
    [0, 2, 6],
    [0, 6, 3],
    [0, 3, 5],
    [0, 5, 1],
];

// The row append-then-merge: a fan of six triangles and the same once more.
#[test]
fn the_same_sheet_twice(rt: HostRuntime) {
    let first = sheet_by(rt.alloc(), &FAN, &Cells::Triangles(&BLADES));
    let second = sheet_by(rt.alloc(), &FAN, &Cells::Triangles(&BLADES));
    assert!(rt; has_counts(merged(rt.alloc(), two(rt.alloc(), first, second)), 12, 7));
}

// The merge of the row tie-at-corner: each triangle becomes a point.
#[test]
fn cells_that_repeat_a_point_go(rt: HostRuntime) {
    let corners = [[1, 1, 1, 5, 1]; 4];
    let cells = Cells::Triangles(&[[0, 1, 2], [0, 2, 3], [3, 1, 2]]);
    let sheet = sheet_by(rt.alloc(), &corners, &cells);
    assert!(rt; has_counts(merged(rt.alloc(), one(rt.alloc(), sheet)), 0, 0));
}

/// Point 0 has only the line to 1, which lies where it does.
const DROPPED: [Five; 4] = [
    [2, 0, 0, 0, 1],
    [4, 0, 0, 7, 2],
    [3, 0, 0, 0, 1],
    [4, 0, 0, 0, 1],
];

#[test]
fn leaves_of_dropped_groups_stay_unused(rt: HostRuntime) {
    let cells = Cells::Any(&[(2, [0, 1, 9, 9]), (1, [3, 9, 9, 9]), (2, [3, 2, 9, 9])]);
    let sheet = sheet_by(rt.alloc(), &DROPPED, &cells);
    let found = merged(rt.alloc(), one(rt.alloc(), sheet));
    assert!(rt;
        is_sheet(
            found,
            &[&[1], &[2]],
            &[[3, 0, 0, 0, 1], [4, 0, 0, 0, 1]],
            &[&[1], &[1, 0]],
        )
    );
}
