//! Strips and clips, by hand, over files in memory.

use crate::runs::{output_of, port, words};
use std::process::Abort;
use std::test::Fail;
use viz_base::MemoryOut;
use viz_once::{Once, read_clip, read_strip, run_once};
use viz_told::Status;

// Two triangles of a square.
const SQUARE_MESH: &str = "# vtk DataFile Version 3.0
t
ASCII
DATASET POLYDATA
POINTS 4 int
0 0 0
1 0 0
1 1 0
0 1 0
POLYGONS 2 8
3 0 1 2
3 0 2 3
POINT_DATA 4
SCALARS s int
LOOKUP_TABLE default
0 0 0 0
";

const SQUARE_STRIP: &str = "# vtk DataFile Version 3.0
vizrun fixed 10^-3
ASCII
DATASET POLYDATA
POINTS 4 long
0 0 0
1000 0 0
1000 1000 0
0 1000 0
TRIANGLE_STRIPS 1 5
4 1 2 0 3
POINT_DATA 4
SCALARS scalars long 1
LOOKUP_TABLE default
0
0
0
0
";

// A tetrahedron.
const TETRAHEDRON: &str = "# vtk DataFile Version 3.0
t
ASCII
DATASET UNSTRUCTURED_GRID
POINTS 4 int
0 0 0
1 0 0
0 1 0
0 0 1
CELLS 1 5
4 0 1 2 3
CELL_TYPES 1
10
POINT_DATA 4
SCALARS s int
LOOKUP_TABLE default
0 0 0 0
";

const UPPER_HALF: &str = "# vtk DataFile Version 3.0
vizrun fixed 10^-3
ASCII
DATASET UNSTRUCTURED_GRID
POINTS 4 long
0 0 1000
0 0 500
500 0 500
0 500 500
CELLS 1 5
4 0 1 2 3
CELL_TYPES 1
10
POINT_DATA 4
SCALARS scalars long 1
LOOKUP_TABLE default
0
0
0
0
";

// The command over these bytes is Done, with this report, and writes this text.
fn makes<R: AllocGlobal + Abort>(
    rt: &R,
    command: &Once<'_>,
    bytes: &str,
    report: &str,
    want: &str,
) -> Result<(), Fail> {
    let alloc = rt.alloc();
    let mut ports = Vec::new(alloc);
    ports
        .push(port(alloc, bytes.as_bytes())?)
        .ok()
        .ok_or("no room")?;
    let mut out = MemoryOut::new(alloc, Vec::new(alloc));
    let status = run_once(alloc, command, &mut ports, &mut out);
    assert!(rt; status == Status::Done, "{report}");
    assert!(rt; out.text() == report.as_bytes(), "{report}");
    assert!(rt; output_of(&ports) == Some(want.as_bytes()), "{report}");
    Ok(())
}

#[test]
fn a_square_is_one_strip(rt: HostRuntime) -> Result<(), Fail> {
    let words = words(rt.alloc(), "a.vtk o.vtk")?;
    let command = read_strip(&words).ok_or("no command")?;
    let report = "strips 1 triangles 2 points 4\n";
    makes(&rt, &command, SQUARE_MESH, report, SQUARE_STRIP)
}

#[test]
fn a_tetrahedron_is_clipped(rt: HostRuntime) -> Result<(), Fail> {
    let words = words(rt.alloc(), "a.vtk o.vtk 0 0 2 1")?;
    let command = read_clip(&words).ok_or("no command")?;
    let report = "file cells 1 points 4\n";
    makes(&rt, &command, TETRAHEDRON, report, UPPER_HALF)
}
