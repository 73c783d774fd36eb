//! Meshes in files of version 5.1, whose texts are reckoned by hand: those of version 3.0 in
//! `mesh_write`, with offsets in the place of counts.

use crate::mesh_write::{any, corners, empty, line, shows, surface};
use std::test::Fail;
use viz_image_write::Style;
use viz_sheet::Ranks;

const WORDS: Style = Style {
    binary: false,
    digits: 3,
    version: 5,
};

const BYTES: Style = Style {
    binary: true,
    digits: 3,
    version: 5,
};

const SURFACE: &[u8] = b"# vtk DataFile Version 5.1
vizrun fixed 10^-3
ASCII
DATASET POLYDATA
POINTS 7 long
555 555 555
1000 555 555
555 1000 555
1000 1000 555
555 555 1000
1000 555 1000
555 1000 1000
POLYGONS 7 18
OFFSETS vtktypeint64
0
3
6
9
12
15
18
CONNECTIVITY vtktypeint64
1 0 3
5 0 1
3 0 2
2 0 6
4 0 5
6 0 4
POINT_DATA 7
SCALARS scalars long 1
LOOKUP_TABLE default
5
5
5
5
5
5
5
";

const SURFACE_IN_BYTES: &[u8] = b"# vtk DataFile Version 5.1
vizrun fixed 10^-3
BINARY
DATASET POLYDATA
POINTS 7 long
\0\0\0\0\0\0\x02\x2b\0\0\0\0\0\0\x02\x2b\0\0\0\0\0\0\x02\x2b\
\0\0\0\0\0\0\x03\xe8\0\0\0\0\0\0\x02\x2b\0\0\0\0\0\0\x02\x2b\
\0\0\0\0\0\0\x02\x2b\0\0\0\0\0\0\x03\xe8\0\0\0\0\0\0\x02\x2b\
\0\0\0\0\0\0\x03\xe8\0\0\0\0\0\0\x03\xe8\0\0\0\0\0\0\x02\x2b\
\0\0\0\0\0\0\x02\x2b\0\0\0\0\0\0\x02\x2b\0\0\0\0\0\0\x03\xe8\
\0\0\0\0\0\0\x03\xe8\0\0\0\0\0\0\x02\x2b\0\0\0\0\0\0\x03\xe8\
\0\0\0\0\0\0\x02\x2b\0\0\0\0\0\0\x03\xe8\0\0\0\0\0\0\x03\xe8
POLYGONS 7 18
OFFSETS vtktypeint64
\0\0\0\0\0\0\0\0\0\0\0\0\0\0\0\x03\0\0\0\0\0\0\0\x06\
\0\0\0\0\0\0\0\x09\0\0\0\0\0\0\0\x0c\0\0\0\0\0\0\0\x0f\
\0\0\0\0\0\0\0\x12
CONNECTIVITY vtktypeint64
\0\0\0\0\0\0\0\x01\0\0\0\0\0\0\0\0\0\0\0\0\0\0\0\x03\
\0\0\0\0\0\0\0\x05\0\0\0\0\0\0\0\0\0\0\0\0\0\0\0\x01\
\0\0\0\0\0\0\0\x03\0\0\0\0\0\0\0\0\0\0\0\0\0\0\0\x02\
\0\0\0\0\0\0\0\x02\0\0\0\0\0\0\0\0\0\0\0\0\0\0\0\x06\
\0\0\0\0\0\0\0\x04\0\0\0\0\0\0\0\0\0\0\0\0\0\0\0\x05\
\0\0\0\0\0\0\0\x06\0\0\0\0\0\0\0\0\0\0\0\0\0\0\0\x04
POINT_DATA 7
SCALARS scalars long 1
LOOKUP_TABLE default
\0\0\0\0\0\0\0\x05\0\0\0\0\0\0\0\x05\0\0\0\0\0\0\0\x05\
\0\0\0\0\0\0\0\x05\0\0\0\0\0\0\0\x05\0\0\0\0\0\0\0\x05\
\0\0\0\0\0\0\0\x05
";

#[test]
fn a_surface_has_offsets(rt: HostRuntime) -> Result<(), Fail> {
    let sheets = vec![in rt.alloc(); surface(rt.alloc())?]?;
    shows(&rt, rt.alloc(), sheets, &WORDS, SURFACE)?;
    let sheets = vec![in rt.alloc(); surface(rt.alloc())?]?;
    shows(&rt, rt.alloc(), sheets, &BYTES, SURFACE_IN_BYTES)
}

const ALL_CELLS: &[u8] = b"# vtk DataFile Version 5.1
vizrun fixed 10^-3
ASCII
DATASET UNSTRUCTURED_GRID
POINTS 4 long
0 0 0
500 0 0
0 500 0
0 0 500
CELLS 6 13
OFFSETS vtktypeint64
0
3
4
6
10
13
CONNECTIVITY vtktypeint64
0 2 3
1
3 0
0 1 2 3
3 1 0
CELL_TYPES 5
5
1
3
10
5
POINT_DATA 4
SCALARS scalars long 1
LOOKUP_TABLE default
0
0
1
1
";

const ALL_CELLS_IN_BYTES: &[u8] = b"# vtk DataFile Version 5.1
vizrun fixed 10^-3
BINARY
DATASET UNSTRUCTURED_GRID
POINTS 4 long
\0\0\0\0\0\0\0\0\0\0\0\0\0\0\0\0\0\0\0\0\0\0\0\0\
\0\0\0\0\0\0\x01\xf4\0\0\0\0\0\0\0\0\0\0\0\0\0\0\0\0\
\0\0\0\0\0\0\0\0\0\0\0\0\0\0\x01\xf4\0\0\0\0\0\0\0\0\
\0\0\0\0\0\0\0\0\0\0\0\0\0\0\0\0\0\0\0\0\0\0\x01\xf4
CELLS 6 13
OFFSETS vtktypeint64
\0\0\0\0\0\0\0\0\0\0\0\0\0\0\0\x03\0\0\0\0\0\0\0\x04\
\0\0\0\0\0\0\0\x06\0\0\0\0\0\0\0\x0a\0\0\0\0\0\0\0\x0d
CONNECTIVITY vtktypeint64
\0\0\0\0\0\0\0\0\0\0\0\0\0\0\0\x02\0\0\0\0\0\0\0\x03\
\0\0\0\0\0\0\0\x01\
\0\0\0\0\0\0\0\x03\0\0\0\0\0\0\0\0\
\0\0\0\0\0\0\0\0\0\0\0\0\0\0\0\x01\0\0\0\0\0\0\0\x02\0\0\0\0\0\0\0\x03\
\0\0\0\0\0\0\0\x03\0\0\0\0\0\0\0\x01\0\0\0\0\0\0\0\0
CELL_TYPES 5
\0\0\0\x05\0\0\0\x01\0\0\0\x03\0\0\0\x0a\0\0\0\x05
POINT_DATA 4
SCALARS scalars long 1
LOOKUP_TABLE default
\0\0\0\0\0\0\0\0\0\0\0\0\0\0\0\0\0\0\0\0\0\0\0\x01\
\0\0\0\0\0\0\0\x01
";

#[test]
fn a_grid_of_any_sizes_has_offsets(rt: HostRuntime) -> Result<(), Fail> {
    let sheets = vec![in rt.alloc(); corners(rt.alloc(), any(rt.alloc(), true)?)?]?;
    shows(&rt, rt.alloc(), sheets, &WORDS, ALL_CELLS)?;
    let sheets = vec![in rt.alloc(); corners(rt.alloc(), any(rt.alloc(), true)?)?]?;
    shows(&rt, rt.alloc(), sheets, &BYTES, ALL_CELLS_IN_BYTES)
}

const SMALL_CELLS: &[u8] = b"# vtk DataFile Version 5.1
vizrun fixed 10^-3
ASCII
DATASET POLYDATA
POINTS 4 long
0 0 0
500 0 0
0 500 0
0 0 500
VERTICES 2 1
OFFSETS vtktypeint64
0
1
CONNECTIVITY vtktypeint64
1
LINES 2 2
OFFSETS vtktypeint64
0
2
CONNECTIVITY vtktypeint64
3 0
POLYGONS 3 6
OFFSETS vtktypeint64
0
3
6
CONNECTIVITY vtktypeint64
0 2 3
3 1 0
POINT_DATA 4
SCALARS scalars long 1
LOOKUP_TABLE default
0
0
1
1
";

#[test]
fn each_section_has_its_own_offsets(rt: HostRuntime) -> Result<(), Fail> {
    let sheets = vec![in rt.alloc(); corners(rt.alloc(), any(rt.alloc(), false)?)?]?;
    shows(&rt, rt.alloc(), sheets, &WORDS, SMALL_CELLS)
}

const GRID_OF_TWO_SHEETS: &[u8] = b"# vtk DataFile Version 5.1
vizrun fixed 10^-3
ASCII
DATASET UNSTRUCTURED_GRID
POINTS 6 long
7000 0 0
0 7000 0
0 0 0
500 0 0
0 500 0
0 0 500
CELLS 4 7
OFFSETS vtktypeint64
0
2
3
7
CONNECTIVITY vtktypeint64
0 1
1
5 3 2 4
CELL_TYPES 3
3
1
10
POINT_DATA 6
SCALARS scalars long 1
LOOKUP_TABLE default
1
2
0
0
1
1
";

#[test]
fn offsets_run_on_over_sheets(rt: HostRuntime) -> Result<(), Fail> {
    let ranks = Ranks::Tetrahedra(vec![in rt.alloc(); [3, 1, 0, 2]]?);
    let sheets = vec![in rt.alloc(); line(rt.alloc())?, corners(rt.alloc(), ranks)?]?;
    shows(&rt, rt.alloc(), sheets, &WORDS, GRID_OF_TWO_SHEETS)
}

const NOTHING: &[u8] = b"# vtk DataFile Version 5.1
vizrun fixed 10^-3
ASCII
DATASET POLYDATA
POINTS 0 long
POLYGONS 1 0
OFFSETS vtktypeint64
0
CONNECTIVITY vtktypeint64
";

const NOTHING_IN_BYTES: &[u8] = b"# vtk DataFile Version 5.1
vizrun fixed 10^-3
BINARY
DATASET POLYDATA
POINTS 0 long
POLYGONS 1 0
OFFSETS vtktypeint64
\0\0\0\0\0\0\0\0
CONNECTIVITY vtktypeint64
";

#[test]
fn nothing_has_one_offset(rt: HostRuntime) -> Result<(), Fail> {
    shows(&rt, rt.alloc(), Vec::new(rt.alloc()), &WORDS, NOTHING)?;
    let sheets = vec![in rt.alloc(); empty(rt.alloc())?]?;
    shows(&rt, rt.alloc(), sheets, &BYTES, NOTHING_IN_BYTES)
}
