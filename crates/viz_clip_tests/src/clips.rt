//! Clips of few tetrahedra, by hand from the table of docs/FORMATS-OF-FILTERS.md, "Clipped
//! volumes".

use crate::sheets::{Five, has_cells, has_points, is_level_0, sheet};
use std::alloc::Global;
use viz_clip::{ClipStop, Clipped, as_mesh, clip};
use viz_fraction::Form;
use viz_sheet::{Mesh, Sheet};

/// A sheet, a form, and the mesh that is wanted.
struct Row {
    points: &'static [[i64; 4]],
    cells: &'static [(u8, [u32; 4])],
    /// The numbers c, q and r of the form; a and b are 0.
    form: [i64; 3],
    kept: &'static [Five],
    tets: &'static [[u32; 4]],
}

/// One tetrahedron, its corners at 0 and at 1 along each axis.
const CORNER: [[i64; 4]; 4] = [[0, 0, 0, 0], [1, 0, 0, 0], [0, 1, 0, 0], [0, 0, 1, 0]];

/// The same, with the scalar 1 at the corners 1 and 2, and -1 at the others.
const TWO: [[i64; 4]; 4] = [[0, 0, 0, -1], [1, 0, 0, 1], [0, 1, 0, 1], [0, 0, 1, -1]];

/// The same, with the scalar 0 at the corner 0, and -1 at the others.
const TOUCHED: [[i64; 4]; 4] = [[0, 0, 0, 0], [1, 0, 0, -1], [0, 1, 0, -1], [0, 0, 1, -1]];

/// Two tetrahedra at a facet, above 0 at the corners 0 and 4.
const PAIR: [[i64; 4]; 5] = [
    [0, 0, 0, 1],
    [2, 0, 0, -1],
    [0, 2, 0, -1],
    [0, 0, 2, -1],
    [2, 2, 2, 1],
];

const WHOLE: [(u8, [u32; 4]); 1] = [(4, [0, 1, 2, 3])];

const TURNED: [(u8, [u32; 4]); 1] = [(4, [3, 1, 0, 2])];

const BOTH: [(u8, [u32; 4]); 2] = [(4, [0, 1, 2, 3]), (4, [4, 3, 2, 1])];

/// The form of these numbers.
fn form(numbers: &[i64; 3]) -> Form {
    let [c, q, r] = *numbers;
    Form {
        a: 0,
        b: 0,
        c,
        q,
        r,
    }
}

const ROWS: [Row; 7] = [
    // One corner is inside.
    Row {
        points: &CORNER,
        cells: &WHOLE,
        form: [2, 0, 1],
        kept: &[
            [0, 0, 1, 0, 1],
            [0, 0, 1, 0, 2],
            [1, 0, 1, 0, 2],
            [0, 1, 1, 0, 2],
        ],
        tets: &[[0, 1, 2, 3]],
    },
    // Three are: a prism.
    Row {
        points: &CORNER,
        cells: &WHOLE,
        form: [-2, 0, -1],
        kept: &[
            [0, 0, 0, 0, 1],
            [1, 0, 0, 0, 1],
            [0, 1, 0, 0, 1],
            [0, 0, 1, 0, 2],
            [1, 0, 1, 0, 2],
            [0, 1, 1, 0, 2],
        ],
        tets: &[[0, 1, 2, 5], [0, 1, 4, 5], [0, 3, 4, 5]],
    },
    // Two are, whatever the order of the cell: cuts 01, 02, 13 and 23.
    Row {
        points: &TWO,
        cells: &TURNED,
        form: [0, 1, 0],
        kept: &[
            [1, 0, 0, 1, 1],
            [0, 1, 0, 1, 1],
            [1, 0, 0, 0, 2],
            [0, 1, 0, 0, 2],
            [1, 0, 1, 0, 2],
            [0, 1, 1, 0, 2],
        ],
        tets: &[[0, 1, 3, 5], [0, 2, 3, 5], [0, 2, 4, 5]],
    },
    // A corner of the value 0 is inside, and its cuts lie at it.
    Row {
        points: &TOUCHED,
        cells: &WHOLE,
        form: [0, 1, 0],
        kept: &[
            [0, 0, 0, 0, 1],
            [0, 0, 0, 0, 1],
            [0, 0, 0, 0, 1],
            [0, 0, 0, 0, 1],
        ],
        tets: &[[0, 1, 2, 3]],
    },
    // All are inside, and none is.
    Row {
        points: &CORNER,
        cells: &TURNED,
        form: [0, 1, 0],
        kept: &[
            [0, 0, 0, 0, 1],
            [1, 0, 0, 0, 1],
            [0, 1, 0, 0, 1],
            [0, 0, 1, 0, 1],
        ],
        tets: &[[0, 1, 2, 3]],
    },
    Row {
        points: &CORNER,
        cells: &WHOLE,
        form: [0, 1, 1],
        kept: &[],
        tets: &[],
    },
    // Two cells, one corner of each: cuts 01, 02, 03, 14, 24 and 34.
    Row {
        points: &PAIR,
        cells: &BOTH,
        form: [0, 1, 0],
        kept: &[
            [0, 0, 0, 1, 1],
            [2, 2, 2, 1, 1],
            [1, 0, 0, 0, 1],
            [0, 1, 0, 0, 1],
            [0, 0, 1, 0, 1],
            [2, 1, 1, 0, 1],
            [1, 2, 1, 0, 1],
            [1, 1, 2, 0, 1],
        ],
        tets: &[[0, 2, 3, 4], [1, 5, 6, 7]],
    },
];

// The clip of a sheet of level 0, whatever comes of it.
fn tried(alloc: Global, sheet: &Sheet, form: &Form) -> Option<Result<Clipped, ClipStop>> {
    if !is_level_0(sheet) {
        return None;
    }
    Some(clip(alloc, sheet, form))
}

// The clip as a mesh.
fn meshed(alloc: Global, answer: Option<Result<Clipped, ClipStop>>) -> Option<Mesh> {
    match answer {
        Some(Ok(clipped)) => as_mesh(alloc, clipped).ok(),
        _ => None,
    }
}

// Whether the only sheet of a mesh has these points and cells.
fn has(mesh: Option<Mesh>, kept: &[Five], tets: &[[u32; 4]]) -> bool {
    match mesh {
        Some(mesh) => match mesh.sheets() {
            [only] => has_points(only, kept) && has_cells(only, tets),
            _ => false,
        },
        None => false,
    }
}

fn is_clipped(alloc: Global, row: &Row) -> bool {
    match sheet(alloc, row.points, row.cells) {
        Some(sheet) => has(
            meshed(alloc, tried(alloc, &sheet, &form(&row.form))),
            row.kept,
            row.tets,
        ),
        None => false,
    }
}

#[test]
fn few_cells_are_clipped(rt: HostRuntime) {
    for row in &ROWS {
        assert!(rt;
            is_clipped(rt.alloc(), row),
            "{:?} {:?}",
            row.form,
            row.tets
        );
    }
}

/// Why there is no clip.
#[derive(Clone, Copy, PartialEq, Eq, Debug)]
enum Why {
    NotTetrahedra,
    TooWide,
    Other,
}

fn reason_of(answer: Option<Result<Clipped, ClipStop>>) -> Why {
    match answer {
        Some(Err(ClipStop::NotTetrahedra)) => Why::NotTetrahedra,
        Some(Err(ClipStop::TooWide)) => Why::TooWide,
        _ => Why::Other,
    }
}

fn refusal(
    alloc: Global,
    points: &[[i64; 4]],
    cells: &[(u8, [u32; 4])],
    numbers: &[i64; 3],
) -> Why {
    match sheet(alloc, points, cells) {
        Some(sheet) => reason_of(tried(alloc, &sheet, &form(numbers))),
        None => Why::Other,
    }
}

/// A corner far out.
const FAR: [[i64; 4]; 4] = [[0, 0, 0, 0], [1, 0, 0, 0], [0, 1, 0, 0], [0, 0, 1 << 62, 0]];

const TRIANGLE: [(u8, [u32; 4]); 2] = [(3, [0, 1, 2, 0]), (4, [0, 1, 2, 3])];

#[test]
fn other_cells_and_wide_numbers_are_refused(rt: HostRuntime) {
    let a = rt.alloc();
    let above = [0, 1, 0];
    let wide = [1 << 62, 0, 0];
    assert_eq!(rt; refusal(a, &CORNER, &TRIANGLE, &above), Why::NotTetrahedra);
    assert_eq!(rt; refusal(a, &FAR, &TRIANGLE, &wide), Why::NotTetrahedra);
    assert_eq!(rt; refusal(a, &FAR, &WHOLE, &wide), Why::TooWide);
    assert_eq!(rt; refusal(a, &FAR, &WHOLE, &[1, 0, 0]), Why::Other);
}
