//! Grids and polydata that were written by hand; the places of faults were counted by Python.

use std::alloc::Global;
use std::process::Abort;
use std::test::Fail;
use viz_base::{Pick, Word};
use viz_dataset::{Dataset, Info};
use viz_legacy_read::{ReadStop, header, read};
use viz_lex::{FileFault, FileKind};
use viz_sheet::Mesh;

// The mesh of a file, or its first fault.
fn mesh_of(alloc: Global, text: &[u8], pick: &Pick, unit: u8) -> Result<Mesh, Option<FileFault>> {
    if unit > 9 {
        return Err(None);
    }
    match read(alloc, text, pick, unit) {
        Ok(Dataset::Mesh(mesh)) => Ok(mesh),
        Ok(Dataset::Image(_)) => Err(None),
        Err(ReadStop::File(fault)) => Err(Some(fault)),
        Err(ReadStop::Memory) => Err(None),
    }
}

// A mesh has one sheet, with these names, cells by ranks, and x, s and w of the last point.
fn shows(rt: &impl Abort, mesh: &Mesh, names: &[u32], cells: &[&[u32]], last: [i128; 3]) {
    assert_eq!(rt; mesh.sheets().len(), 1);
    let sheet = &mesh.sheets()[0];
    assert_eq!(rt; sheet.point_count(), names.len(), "{names:?}");
    for (rank, leaf) in names.iter().enumerate() {
        assert!(rt; rank < sheet.point_count());
        assert_eq!(rt; sheet.name(rank), [*leaf].as_slice(), "{names:?}");
        let p = sheet.point(rank);
        if rank + 1 == names.len() {
            assert_eq!(rt; [p.x(), p.s(), p.w()], last, "{names:?}");
        }
    }
    assert_eq!(rt; sheet.cell_count(), cells.len(), "{cells:?}");
    for (i, cell) in cells.iter().enumerate() {
        assert!(rt; i < sheet.cell_count());
        assert_eq!(rt; sheet.cell(i), *cell, "{cells:?}");
    }
}

// A strip of five points.
const STRIP: &[u8] = b"# vtk DataFile Version 3.0\n\
    t\n\
    ASCII\n\
    DATASET POLYDATA\n\
    POINTS 5 int\n\
    0 0 0 1 0 0 2 0 0 3 0 0 4 0 0\n\
    TRIANGLE_STRIPS 1 6\n\
    5 0 1 2 3 4\n\
    ";

// A strip that repeats a point.
const STITCHED: &[u8] = b"# vtk DataFile Version 3.0\n\
    t\n\
    ASCII\n\
    DATASET POLYDATA\n\
    POINTS 5 int\n\
    0 0 0 1 0 0 2 0 0 3 0 0 4 0 0\n\
    TRIANGLE_STRIPS 1 6\n\
    5 0 1 2 2 3\n\
    ";

// A grid of four types of cells. One repeats an index, and no cell has the fifth point.
const MIXED: &[u8] = b"# vtk DataFile Version 4.2\n\
    t\n\
    ASCII\n\
    DATASET UNSTRUCTURED_GRID\n\
    FIELD f 1\n\
    a 1 1 int 7\n\
    POINTS 6 short\n\
    0 0 0 1 0 0 0 1 0 0 0 1 9 9 9 -5 0 0\n\
    METADATA\n\
    INFORMATION 0\n\
    \n\
    CELLS 4 14\n\
    4 0 1 2 3\n\
    3 0 0 1\n\
    2 5 1\n\
    1 2\n\
    CELL_TYPES 4\n\
    10 5 3 1\n\
    CELL_DATA 4\n\
    POINT_DATA 6\n\
    SCALARS s int\n\
    LOOKUP_TABLE default\n\
    1 2 3 4 5 -6\n\
    NORMALS n float\n\
    x x x x x x x x x x x x x x x x x x\n\
    ";

#[test]
fn strips_are_read_as_triangles(rt: HostRuntime) -> Result<(), Fail> {
    match &mesh_of(rt.alloc(), STRIP, &Pick::Zero, 0) {
        Ok(mesh) => shows(
            &rt,
            mesh,
            &[0, 1, 2, 3, 4],
            &[&[0, 1, 2], &[2, 1, 3], &[2, 3, 4]],
            [4, 0, 1],
        ),
        Err(fault) => return Err(format!(in rt.alloc(); "{fault:?}")?)?,
    }
    match &mesh_of(rt.alloc(), STITCHED, &Pick::Zero, 0) {
        Ok(mesh) => shows(&rt, mesh, &[0, 1, 2], &[&[0, 1, 2]], [2, 0, 1]),
        Err(fault) => return Err(format!(in rt.alloc(); "{fault:?}")?)?,
    }
    Ok(())
}

#[test]
fn a_grid_of_many_types(rt: HostRuntime) -> Result<(), Fail> {
    let cells: [&[u32]; 3] = [&[0, 1, 2, 3], &[4, 1], &[2]];
    let name = Word::new(b"s").ok_or("no name")?;
    for (pick, unit, last) in [
        (Pick::First, 0, [-5, -6, 1]),
        (Pick::Zero, 0, [-5, 0, 1]),
        // -5 thousandths with the scalar -6, in lowest terms
        (Pick::Named(name), 3, [-1, -1200, 200]),
    ] {
        match &mesh_of(rt.alloc(), MIXED, &pick, unit) {
            Ok(mesh) => shows(&rt, mesh, &[0, 1, 2, 3, 5], &cells, last),
            Err(fault) => return Err(format!(in rt.alloc(); "{fault:?}")?)?,
        }
    }
    assert!(rt; matches!(header(MIXED), Ok(Info::Mesh)));
    Ok(())
}

// Three points, and one polygon to come.
const POLYGON: &[u8] = b"# vtk DataFile Version 3.0\n\
    t\n\
    ASCII\n\
    DATASET POLYDATA\n\
    POINTS 3 int\n\
    0 0 0\n\
    1 0 0\n\
    0 1 0\n\
    POLYGONS 1 4\n\
    ";

#[test]
fn last_lines_of_a_polygon(rt: HostRuntime) -> Result<(), Fail> {
    let alloc = rt.alloc();
    for (line, kind, place) in [
        (b"3 0 1 3\n".as_slice(), FileKind::Index, 102),
        (b"3 0 1 -1\n", FileKind::Index, 102),
        (b"9 0 1 2\n", FileKind::Count, 96),
        (b"3 0 1", FileKind::Truncated, 101),
    ] {
        let mut text = Vec::new(alloc);
        text.extend_from_slice(POLYGON)?;
        text.extend_from_slice(line)?;
        let found = mesh_of(alloc, &text, &Pick::First, 0);
        let fault = FileFault { kind, place };
        assert_eq!(rt; found.err().flatten(), Some(fault), "{line:?}");
    }
    Ok(())
}

#[test]
fn faults_of_meshes(rt: HostRuntime) {
    for (text, kind, place) in [
        (
            b"# vtk DataFile Version 3.0\n\
              t\n\
              ASCII\n\
              DATASET POLYDATA\n\
              POINTS 1 float\n\
              0 0 0\n\
              "
                .as_slice(),
            FileKind::FloatArray,
            61,
        ),
        (
            b"# vtk DataFile Version 5.1\n\
              t\n\
              ASCII\n\
              DATASET UNSTRUCTURED_GRID\n\
              POINTS 3 int\n\
              0 0 0 1 0 0 0 1 0\n\
              CELLS 1 4\n\
              ",
            FileKind::Truncated,
            102,
        ),
        (
            b"# vtk DataFile Version 5.10\n\
              t\n\
              ASCII\n\
              DATASET POLYDATA\n\
              POINTS 3 int\n\
              0 0 0 1 0 0 0 1 0\n\
              LINES 2 2\n\
              OFFSETS int 0 1\n\
              ",
            FileKind::Count,
            108,
        ),
        (
            b"# vtk DataFile Version 5.01\n\
              t\n\
              ASCII\n\
              DATASET POLYDATA\n\
              POINTS 3 int\n\
              0 0 0 1 0 0 0 1 0\n\
              LINES 2 2\n\
              OFFSETS int 0 1\n\
              ",
            FileKind::Count,
            108,
        ),
        (
            b"# vtk DataFile Version 12.0\n\
              t\n\
              ASCII\n\
              DATASET POLYDATA\n\
              POINTS 3 int\n\
              0 0 0 1 0 0 0 1 0\n\
              LINES 2 2\n\
              OFFSETS int 0 1\n\
              ",
            FileKind::Count,
            108,
        ),
        (
            b"# vtk DataFile Version 3.0\n\
              t\n\
              ASCII\n\
              DATASET UNSTRUCTURED_GRID\n\
              POINTS 3 int\n\
              0 0 0 1 0 0 0 1 0\n\
              CELL_TYPES 0\n\
              ",
            FileKind::Keyword,
            92,
        ),
        (
            b"# vtk DataFile Version 3.0\n\
              t\n\
              ASCII\n\
              DATASET UNSTRUCTURED_GRID\n\
              POINTS 3 int\n\
              0 0 0 1 0 0 0 1 0\n\
              CELLS 1 4\n\
              3 0 1 3\n\
              ",
            FileKind::Index,
            108,
        ),
        (
            b"# vtk DataFile Version 3.0\n\
              t\n\
              ASCII\n\
              DATASET UNSTRUCTURED_GRID\n\
              POINTS 3 int\n\
              0 0 0 1 0 0 0 1 0\n\
              CELLS 1 4\n\
              2 0 1 2\n\
              ",
            FileKind::Count,
            102,
        ),
        (
            b"# vtk DataFile Version 3.0\n\
              t\n\
              ASCII\n\
              DATASET UNSTRUCTURED_GRID\n\
              POINTS 3 int\n\
              0 0 0 1 0 0 0 1 0\n\
              CELLS 2147483648 4\n\
              ",
            FileKind::TooMany,
            98,
        ),
        (
            b"# vtk DataFile Version 3.0\n\
              t\n\
              ASCII\n\
              DATASET UNSTRUCTURED_GRID\n\
              POINTS 3 int\n\
              0 0 0 1 0 0 0 1 0\n\
              CELLS 1 4\n\
              3 0 1 2\n\
              CELL_TYPES 1\n\
              7\n\
              ",
            FileKind::CellType(7),
            123,
        ),
        (
            b"# vtk DataFile Version 3.0\n\
              t\n\
              ASCII\n\
              DATASET UNSTRUCTURED_GRID\n\
              POINTS 3 int\n\
              0 0 0 1 0 0 0 1 0\n\
              CELLS 1 4\n\
              3 0 1 2\n\
              CELL_TYPES 1\n\
              5\n\
              POINT_DATA 2\n\
              ",
            FileKind::Count,
            136,
        ),
        (
            b"# vtk DataFile Version 3.0\n\
              t\n\
              ASCII\n\
              DATASET UNSTRUCTURED_GRID\n\
              POINTS 3 int\n\
              0 0 0 1 0 0 0 1 0\n\
              CELLS 1 4\n\
              3 0 1 2\n\
              CELL_TYPES 1\n\
              5\n\
              CELL_DATA 2\n\
              ",
            FileKind::Count,
            135,
        ),
        (
            b"# vtk DataFile Version 3.0\n\
              t\n\
              ASCII\n\
              DATASET UNSTRUCTURED_GRID\n\
              POINTS 3 int\n\
              0 0 0 1 0 0 0 1 0\n\
              CELLS 1 4\n\
              3 0 1 2\n\
              CELL_TYPES 1\n\
              5\n\
              ",
            FileKind::NoArray,
            125,
        ),
        (
            b"# vtk DataFile Version 3.0\n\
              t\n\
              ASCII\n\
              DATASET UNSTRUCTURED_GRID\n\
              POINTS 3 int\n\
              0 0 0 1 0 0 0 1 0\n\
              CELLS 1 4\n\
              3 0 1 2\n\
              CELL_TYPES 1\n\
              5\n\
              POINT_DATA 3\n\
              SCALARS s double\n\
              ",
            FileKind::FloatArray,
            148,
        ),
        (
            b"# vtk DataFile Version 3.0\n\
              t\n\
              ASCII\n\
              DATASET UNSTRUCTURED_GRID\n\
              POINTS 3 int\n\
              0 0 0 1 0 0 0 1 0\n\
              CELLS 1 4\n\
              3 0 1 2\n\
              CELL_TYPES 1\n\
              5\n\
              POINT_DATA 3\n\
              SCALARS s int\n\
              LOOKUP_TABLE default\n\
              1 2",
            FileKind::Truncated,
            176,
        ),
        (
            b"# vtk DataFile Version 3.0\n\
              t\n\
              ASCII\n\
              DATASET POLYDATA\n\
              POINTS 3 int\n\
              0 0 0 1 0 0 0 1 0\n\
              LINES 1 3 2 0 1\n\
              LINES 1 3 2 0 1\n\
              ",
            FileKind::Keyword,
            99,
        ),
    ] {
        let fault = Some(FileFault { kind, place });
        let found = mesh_of(rt.alloc(), text, &Pick::First, 0);
        assert_eq!(rt; found.err(), Some(fault), "{text:?}");
        assert!(rt; matches!(header(text), Ok(Info::Mesh)), "{text:?}");
    }
}

// A polygon of 20,002 points.
fn large_polygon(alloc: Global) -> Result<Vec<u8>, Fail> {
    let front = b"# vtk DataFile Version 3.0\nt\nASCII\nDATASET POLYDATA\nPOINTS 20002 int\n";
    let mut text = front.to_vec(alloc)?;
    for i in 0..20_002_u32 {
        text.extend_from_slice(format!(in alloc; "{i} 0 1\n")?.as_bytes())?;
    }
    text.extend_from_slice(b"POLYGONS 1 20003\n20002")?;
    for i in 0..20_002_u32 {
        text.extend_from_slice(format!(in alloc; " {i}")?.as_bytes())?;
    }
    Ok(text)
}

#[test]
fn a_mesh_of_a_real_size(rt: HostRuntime) -> Result<(), Fail> {
    let text = large_polygon(rt.alloc())?;
    match &mesh_of(rt.alloc(), &text, &Pick::Zero, 0) {
        Ok(mesh) => {
            assert_eq!(rt; mesh.sheets().len(), 1);
            assert_eq!(rt; mesh.sheets()[0].cell_count(), 20_000);
            assert_eq!(rt; mesh.sheets()[0].point_count(), 20_002);
        }
        Err(fault) => return Err(format!(in rt.alloc(); "{fault:?}")?)?,
    }
    Ok(())
}
