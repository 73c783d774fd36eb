//! Meshes whose texts are reckoned by hand.

use std::alloc::Global;
use std::process::Abort;
use std::test::Fail;
use viz_base::Bytes;
use viz_fraction::{Point5, point, small};
use viz_image_write::{Style, WriteStop};
use viz_mesh_write::{write_mesh, write_owned_mesh};
use viz_sheet::{Leaves, Mesh, Mixed, Places, Ranks, Sheet, are_cells, sheet_of};

const WORDS: Style = Style {
    binary: false,
    digits: 3,
    version: 3,
};

const BYTES: Style = Style {
    binary: true,
    digits: 3,
    version: 3,
};

/// The origin and half a unit along each axis, with the scalars 0, 1/2, 1 and 3/2.
const CORNERS: [[i128; 5]; 4] = [
    [0, 0, 0, 0, 2],
    [1, 0, 0, 1, 2],
    [0, 1, 0, 2, 2],
    [0, 0, 1, 3, 2],
];

// The place (x, y, z) / w with the scalar s / w.
fn point_of(numbers: [i128; 5]) -> Result<Point5, Fail> {
    let [x, y, z, s, w] = numbers;
    if w <= 0 {
        return Err("a positive weight")?;
    }
    match point(x, y, z, s, w) {
        Ok(p) => Ok(p),
        Err(_) => Err("a narrow point")?,
    }
}

// Points in all the room.
fn wide(alloc: Global, rows: &[[i128; 5]]) -> Result<Places, Fail> {
    let mut points = Vec::new(alloc);
    for row in rows {
        points.push(point_of(*row)?)?;
    }
    Ok(Places::Wide(points))
}

// Points in half the room.
fn narrow(alloc: Global, rows: &[[i128; 5]]) -> Result<Places, Fail> {
    let mut points = Vec::new(alloc);
    for row in rows {
        match small(&point_of(*row)?) {
            Some(p) => points.push(p)?,
            None => Err("a small point")?,
        }
    }
    Ok(Places::Small(points))
}

// The sheet of cells of points that are named by their numbers.
fn sheet_by(alloc: Global, count: u32, places: Places, ranks: Ranks) -> Result<Sheet, Fail> {
    let leaves = Leaves::of_points(alloc, count)?;
    if !are_cells(&leaves, &places, &ranks) {
        return Err("cells of ascending names")?;
    }
    let sheet = sheet_of(alloc, leaves, places, ranks)?;
    Ok(sheet)
}

// The same of the corners.
pub(crate) fn corners(alloc: Global, ranks: Ranks) -> Result<Sheet, Fail> {
    sheet_by(alloc, 4, wide(alloc, &CORNERS)?, ranks)
}

// The bytes that are written of sheets.
fn bytes_of(alloc: Global, sheets: Vec<Sheet>, style: &Style) -> Result<Bytes, WriteStop> {
    let mesh = Mesh::new(sheets);
    write_mesh(alloc, &mesh, style)
}

// These sheets are written so, lent or given up.
pub(crate) fn shows(
    rt: &impl Abort,
    alloc: Global,
    sheets: Vec<Sheet>,
    style: &Style,
    want: &[u8],
) -> Result<(), Fail> {
    let mesh = Mesh::new(sheets);
    let lent = write_mesh(alloc, &mesh, style)?;
    assert_eq!(rt; lent.list(), want);
    let given_up = write_owned_mesh(alloc, mesh, style)?;
    assert_eq!(rt; given_up.list(), want);
    Ok(())
}

const TETRAHEDRON: &[u8] = b"# vtk DataFile Version 3.0
vizrun fixed 10^-3
ASCII
DATASET UNSTRUCTURED_GRID
POINTS 4 long
0 0 0
500 0 0
0 500 0
0 0 500
CELLS 1 5
4 3 1 0 2
CELL_TYPES 1
10
POINT_DATA 4
SCALARS scalars long 1
LOOKUP_TABLE default
0
0
1
1
";

#[test]
fn a_tetrahedron_is_a_grid(rt: HostRuntime) -> Result<(), Fail> {
    let ranks = Ranks::Tetrahedra(vec![in rt.alloc(); [3, 1, 0, 2]]?);
    let sheets = vec![in rt.alloc(); corners(rt.alloc(), ranks)?]?;
    shows(&rt, rt.alloc(), sheets, &WORDS, TETRAHEDRON)
}

const TETRAHEDRON_IN_BYTES: &[u8] = b"# vtk DataFile Version 3.0
vizrun fixed 10^-3
BINARY
DATASET UNSTRUCTURED_GRID
POINTS 4 long
\0\0\0\0\0\0\0\0\0\0\0\0\0\0\0\0\0\0\0\0\0\0\0\0\
\0\0\0\0\0\0\x01\xf4\0\0\0\0\0\0\0\0\0\0\0\0\0\0\0\0\
\0\0\0\0\0\0\0\0\0\0\0\0\0\0\x01\xf4\0\0\0\0\0\0\0\0\
\0\0\0\0\0\0\0\0\0\0\0\0\0\0\0\0\0\0\0\0\0\0\x01\xf4
CELLS 1 5
\0\0\0\x04\0\0\0\x03\0\0\0\x01\0\0\0\0\0\0\0\x02
CELL_TYPES 1
\0\0\0\x0a
POINT_DATA 4
SCALARS scalars long 1
LOOKUP_TABLE default
\0\0\0\0\0\0\0\0\0\0\0\0\0\0\0\0\0\0\0\0\0\0\0\x01\0\0\0\0\0\0\0\x01
";

#[test]
fn bytes_have_their_highest_first(rt: HostRuntime) -> Result<(), Fail> {
    let ranks = Ranks::Tetrahedra(vec![in rt.alloc(); [3, 1, 0, 2]]?);
    let sheets = vec![in rt.alloc(); corners(rt.alloc(), ranks)?]?;
    shows(&rt, rt.alloc(), sheets, &BYTES, TETRAHEDRON_IN_BYTES)
}

// Cells of these sizes, among them one of each size that is asked for.
pub(crate) fn any(alloc: Global, with_tetrahedron: bool) -> Result<Ranks, Fail> {
    let mut cells = Vec::new(alloc);
    cells.push(Mixed::new(3, [0, 2, 3, 9]))?;
    cells.push(Mixed::new(1, [1, 9, 9, 9]))?;
    cells.push(Mixed::new(2, [3, 0, 9, 9]))?;
    if with_tetrahedron {
        cells.push(Mixed::new(4, [0, 1, 2, 3]))?;
    }
    cells.push(Mixed::new(3, [3, 1, 0, 9]))?;
    Ok(Ranks::Any(cells))
}

const SMALL_CELLS: &[u8] = b"# vtk DataFile Version 3.0
vizrun fixed 10^-3
ASCII
DATASET POLYDATA
POINTS 4 long
0 0 0
500 0 0
0 500 0
0 0 500
VERTICES 1 2
1 1
LINES 1 3
2 3 0
POLYGONS 2 8
3 0 2 3
3 3 1 0
POINT_DATA 4
SCALARS scalars long 1
LOOKUP_TABLE default
0
0
1
1
";

const ALL_CELLS: &[u8] = b"# vtk DataFile Version 3.0
vizrun fixed 10^-3
ASCII
DATASET UNSTRUCTURED_GRID
POINTS 4 long
0 0 0
500 0 0
0 500 0
0 0 500
CELLS 5 18
3 0 2 3
1 1
2 3 0
4 0 1 2 3
3 3 1 0
CELL_TYPES 5
5
1
3
10
5
POINT_DATA 4
SCALARS scalars long 1
LOOKUP_TABLE default
0
0
1
1
";

#[test]
fn cells_of_any_size_stand_by_size_or_in_a_grid(rt: HostRuntime) -> Result<(), Fail> {
    let sheets = vec![in rt.alloc(); corners(rt.alloc(), any(rt.alloc(), false)?)?]?;
    shows(&rt, rt.alloc(), sheets, &WORDS, SMALL_CELLS)?;
    let sheets = vec![in rt.alloc(); corners(rt.alloc(), any(rt.alloc(), true)?)?]?;
    shows(&rt, rt.alloc(), sheets, &WORDS, ALL_CELLS)
}

const NOTHING: &[u8] = b"# vtk DataFile Version 3.0
vizrun fixed 10^-3
ASCII
DATASET POLYDATA
POINTS 0 long
POLYGONS 0 0
";

const NOTHING_IN_BYTES: &[u8] = b"# vtk DataFile Version 3.0
vizrun fixed 10^-3
BINARY
DATASET POLYDATA
POINTS 0 long
POLYGONS 0 0
";

// A sheet without a cell.
pub(crate) fn empty(alloc: Global) -> Result<Sheet, Fail> {
    sheet_by(alloc, 0, wide(alloc, &[])?, Ranks::Lines(Vec::new(alloc)))
}

#[test]
fn nothing_has_no_scalars(rt: HostRuntime) -> Result<(), Fail> {
    shows(&rt, rt.alloc(), Vec::new(rt.alloc()), &WORDS, NOTHING)?;
    let sheets = vec![in rt.alloc(); empty(rt.alloc())?]?;
    shows(&rt, rt.alloc(), sheets, &WORDS, NOTHING)?;
    let sheets = vec![in rt.alloc(); empty(rt.alloc())?, empty(rt.alloc())?]?;
    shows(&rt, rt.alloc(), sheets, &BYTES, NOTHING_IN_BYTES)
}

const TWO_SHEETS: &[u8] = b"# vtk DataFile Version 3.0
vizrun fixed 10^-0
ASCII
DATASET POLYDATA
POINTS 5 long
7 0 0
0 7 0
-1 0 0
0 0 0
0 0 7
VERTICES 1 2
1 1
LINES 2 6
2 0 1
2 4 2
POLYGONS 1 4
3 3 2 4
POINT_DATA 5
SCALARS scalars long 1
LOOKUP_TABLE default
1
2
-1
-2
3
";

// A line from the second of three points to the third, and a vertex at the third.
pub(crate) fn line(alloc: Global) -> Result<Sheet, Fail> {
    let places = narrow(alloc, &[[9, 9, 9, 9, 1], [7, 0, 0, 1, 1], [0, 7, 0, 2, 1]])?;
    let mut cells = Vec::new(alloc);
    cells.push(Mixed::new(2, [1, 2, 0, 0]))?;
    cells.push(Mixed::new(1, [2, 0, 0, 0]))?;
    sheet_by(alloc, 3, places, Ranks::Any(cells))
}

// A triangle and one of its sides.
fn side(alloc: Global) -> Result<Sheet, Fail> {
    let places = narrow(
        alloc,
        &[[-1, 0, 0, -1, 2], [0, 0, 0, -2, 1], [0, 0, 7, 3, 1]],
    )?;
    let mut cells = Vec::new(alloc);
    cells.push(Mixed::new(3, [1, 0, 2, 0]))?;
    cells.push(Mixed::new(2, [2, 0, 0, 0]))?;
    sheet_by(alloc, 3, places, Ranks::Any(cells))
}

const GRID_OF_TWO_SHEETS: &[u8] = b"# vtk DataFile Version 3.0
vizrun fixed 10^-3
ASCII
DATASET UNSTRUCTURED_GRID
POINTS 6 long
7000 0 0
0 7000 0
0 0 0
500 0 0
0 500 0
0 0 500
CELLS 3 10
2 0 1
1 1
4 5 3 2 4
CELL_TYPES 3
3
1
10
POINT_DATA 6
SCALARS scalars long 1
LOOKUP_TABLE default
1
2
0
0
1
1
";

#[test]
fn a_grid_of_two_sheets_has_all_points_first(rt: HostRuntime) -> Result<(), Fail> {
    let ranks = Ranks::Tetrahedra(vec![in rt.alloc(); [3, 1, 0, 2]]?);
    let sheets = vec![in rt.alloc(); line(rt.alloc())?, corners(rt.alloc(), ranks)?]?;
    shows(&rt, rt.alloc(), sheets, &WORDS, GRID_OF_TWO_SHEETS)
}

#[test]
fn ranks_are_moved_by_the_sheets_in_front(rt: HostRuntime) -> Result<(), Fail> {
    let mut sheets = Vec::new(rt.alloc());
    sheets.push(line(rt.alloc())?)?;
    sheets.push(empty(rt.alloc())?)?;
    sheets.push(side(rt.alloc())?)?;
    let style = Style {
        binary: false,
        digits: 0,
        version: 3,
    };
    shows(&rt, rt.alloc(), sheets, &style, TWO_SHEETS)
}

const TWO_KINDS: &[u8] = b"# vtk DataFile Version 3.0
vizrun fixed 10^-3
BINARY
DATASET POLYDATA
POINTS 3 long
\xff\xff\xff\xff\xff\xff\xff\xff\0\0\0\0\0\0\0\0\0\0\0\0\0\0\0\0\
\0\0\0\0\0\0\x03\xe8\0\0\0\0\0\0\0\0\0\0\0\0\0\0\0\0\
\0\0\0\0\0\0\0\0\0\0\0\0\0\0\x03\xe8\0\0\0\0\0\0\0\0
VERTICES 1 2
\0\0\0\x01\0\0\0\0
LINES 1 3
\0\0\0\x02\0\0\0\x01\0\0\0\x02
POINT_DATA 3
SCALARS scalars long 1
LOOKUP_TABLE default
\xff\xff\xff\xff\xff\xff\xff\xff\0\0\0\0\0\0\0\x05\0\0\0\0\0\0\x01\x02
";

#[test]
fn each_block_of_bytes_ends_with_a_newline(rt: HostRuntime) -> Result<(), Fail> {
    let first = sheet_by(
        rt.alloc(),
        1,
        wide(rt.alloc(), &[[-1, 0, 0, -1, 10_000]])?,
        Ranks::Vertices(vec![in rt.alloc(); [0]]?),
    )?;
    let second = sheet_by(
        rt.alloc(),
        2,
        wide(rt.alloc(), &[[1, 0, 0, 5, 1], [0, 1, 0, 258, 1]])?,
        Ranks::Lines(vec![in rt.alloc(); [0, 1]]?),
    )?;
    let sheets = vec![in rt.alloc(); first, second]?;
    shows(&rt, rt.alloc(), sheets, &BYTES, TWO_KINDS)
}

/// The contour at 5 round one corner of a cube that is 9 there and 0 elsewhere, in ninths.
const CORNER: [[i128; 5]; 7] = [
    [5, 5, 5, 45, 9],
    [9, 5, 5, 45, 9],
    [5, 9, 5, 45, 9],
    [9, 9, 5, 45, 9],
    [5, 5, 9, 45, 9],
    [9, 5, 9, 45, 9],
    [5, 9, 9, 45, 9],
];

const SURFACE: &[u8] = b"# vtk DataFile Version 3.0
vizrun fixed 10^-3
ASCII
DATASET POLYDATA
POINTS 7 long
555 555 555
1000 555 555
555 1000 555
1000 1000 555
555 555 1000
1000 555 1000
555 1000 1000
POLYGONS 6 24
3 1 0 3
3 5 0 1
3 3 0 2
3 2 0 6
3 4 0 5
3 6 0 4
POINT_DATA 7
SCALARS scalars long 1
LOOKUP_TABLE default
5
5
5
5
5
5
5
";

// The sheet of that contour.
pub(crate) fn surface(alloc: Global) -> Result<Sheet, Fail> {
    let triangles = [
        [1, 0, 3],
        [5, 0, 1],
        [3, 0, 2],
        [2, 0, 6],
        [4, 0, 5],
        [6, 0, 4],
    ];
    let ranks = Ranks::Triangles(Vec::from_array(alloc, triangles)?);
    sheet_by(alloc, 7, wide(alloc, &CORNER)?, ranks)
}

#[test]
fn a_surface_is_written(rt: HostRuntime) -> Result<(), Fail> {
    let sheets = vec![in rt.alloc(); surface(rt.alloc())?]?;
    shows(&rt, rt.alloc(), sheets, &WORDS, SURFACE)
}

// One point as a vertex.
fn vertex(alloc: Global, numbers: [i128; 5]) -> Result<Vec<Sheet>, Fail> {
    let ranks = Ranks::Vertices(vec![in alloc; [0]]?);
    let sheet = sheet_by(alloc, 1, wide(alloc, &[numbers])?, ranks)?;
    Ok(vec![in alloc; sheet]?)
}

// The text of one point as a vertex.
fn vertex_text(alloc: Global, numbers: [i128; 5], digits: u8) -> Result<String, Fail> {
    if digits > 9 {
        return Err("at most nine places")?;
    }
    let style = Style {
        binary: false,
        digits,
        version: 3,
    };
    let bytes = bytes_of(alloc, vertex(alloc, numbers)?, &style)?;
    let mut text = Vec::new(alloc);
    text.extend_from_slice(bytes.list())?;
    Ok(String::from_utf8(text)?)
}

#[test]
fn numbers_are_rounded_down(rt: HostRuntime) -> Result<(), Fail> {
    for (numbers, digits, place, scalar) in [
        // -5/9, 0 and 5/9, with the scalar -1/9.
        ([-5, 0, 5, -1, 9], 0, "-1 0 0", "-1"),
        ([-5, 0, 5, -1, 9], 3, "-556 0 555", "-1"),
        ([-5, 0, 5, -1, 9], 9, "-555555556 0 555555555", "-1"),
        // Whole numbers, and just below and above them.
        (
            [-10000, -10001, 19999, 19999, 10000],
            3,
            "-1000 -1001 1999",
            "1",
        ),
        // The greatest and the least numbers.
        (
            [0, 0, -9_223_372_036_854_775_808, 0, 1],
            0,
            "0 0 -9223372036854775808",
            "0",
        ),
        (
            [
                9_223_372_036_854_775_807,
                0,
                0,
                9_223_372_036_854_775_807,
                1,
            ],
            0,
            "9223372036854775807 0 0",
            "9223372036854775807",
        ),
        (
            [
                0,
                -9_223_372_036,
                9_223_372_036,
                -9_223_372_036_854_775_808,
                1,
            ],
            9,
            "0 -9223372036000000000 9223372036000000000",
            "-9223372036854775808",
        ),
    ] {
        let text = vertex_text(rt.alloc(), numbers, digits)?;
        let want = format!(in rt.alloc();
            "# vtk DataFile Version 3.0\nvizrun fixed 10^-{digits}\nASCII\nDATASET POLYDATA\n\
            POINTS 1 long\n{place}\nVERTICES 1 2\n1 0\nPOINT_DATA 1\nSCALARS scalars long 1\n\
            LOOKUP_TABLE default\n{scalar}\n"
        )?;
        assert_eq!(rt; text.as_str(), want.as_str(), "{numbers:?} {digits}");
    }
    Ok(())
}

#[test]
fn wide_numbers_are_refused(rt: HostRuntime) -> Result<(), Fail> {
    for (numbers, binary, digits) in [
        ([9_223_372_036_854_776, 0, 0, 0, 1], false, 3),
        ([0, 9_223_372_037, 0, 0, 1], true, 9),
        ([0, 0, -9_223_372_036_854_775_809, 0, 1], false, 0),
        ([0, 0, 0, 9_223_372_036_854_775_808, 1], false, 0),
        ([0, 0, 0, -9_223_372_036_854_775_809, 1], true, 0),
    ] {
        let style = Style {
            binary,
            digits,
            version: 3,
        };
        let sheets = vertex(rt.alloc(), numbers)?;
        let mesh = Mesh::new(sheets);
        let refused = matches!(
            write_mesh(rt.alloc(), &mesh, &style),
            Err(WriteStop::TooWide)
        );
        assert!(rt; refused, "{numbers:?} {digits}");
        let refused = matches!(
            write_owned_mesh(rt.alloc(), mesh, &style),
            Err(WriteStop::TooWide)
        );
        assert!(rt; refused, "{numbers:?} {digits}, given up");
    }
    Ok(())
}
