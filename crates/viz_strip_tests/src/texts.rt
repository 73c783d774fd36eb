//! The text of a mesh with strips, by hand, and what is read of it.

use crate::flat::is_flat;
use std::alloc::Global;
use std::process::Abort;
use std::test::Fail;
use viz_base::{Bytes, Pick};
use viz_dataset::Dataset;
use viz_legacy_read::read;
use viz_sheet::Mesh;
use viz_strip_write::strip_text;

/// A square of two triangles.
const SQUARE: &[u8] = b"# vtk DataFile Version 3.0\n\
    square\n\
    ASCII\n\
    DATASET POLYDATA\n\
    POINTS 4 int\n\
    0 0 0 1 0 0 1 1 0 0 1 0\n\
    POLYGONS 2 8\n\
    3 0 1 2\n\
    3 0 2 3\n\
    POINT_DATA 4\n\
    SCALARS s int\n\
    LOOKUP_TABLE default\n\
    0 0 0 0\n\
    ";

/// The same as one strip, in thousandths.
const STRIP: &[u8] = b"# vtk DataFile Version 3.0\n\
    vizrun fixed 10^-3\n\
    ASCII\n\
    DATASET POLYDATA\n\
    POINTS 4 long\n\
    0 0 0\n\
    1000 0 0\n\
    1000 1000 0\n\
    0 1000 0\n\
    TRIANGLE_STRIPS 1 5\n\
    4 1 2 0 3\n\
    POINT_DATA 4\n\
    SCALARS scalars long 1\n\
    LOOKUP_TABLE default\n\
    0\n\
    0\n\
    0\n\
    0\n\
    ";

// The mesh of a file in thousandths, or in whole units.
fn mesh_of(alloc: Global, text: &[u8], pick: &Pick, unit: u8) -> Result<Mesh, Fail> {
    if unit > 9 {
        return Err("at most nine places")?;
    }
    match read(alloc, text, pick, unit) {
        Ok(Dataset::Mesh(mesh)) => Ok(mesh),
        Ok(Dataset::Image(_)) => Err("a mesh")?,
        Err(_) => Err("no fault")?,
    }
}

// The text of a mesh with strips.
fn text_of(alloc: Global, mesh: &Mesh) -> Result<Bytes, Fail> {
    if !is_flat(mesh) {
        return Err("one sheet of leaves without tetrahedra")?;
    }
    match strip_text(alloc, mesh) {
        Ok(text) => Ok(text),
        Err(_) => Err("a text")?,
    }
}

// A mesh has one sheet, with so many points and these cells by ranks.
fn shows(rt: &impl Abort, mesh: &Mesh, points: usize, cells: &[&[u32]]) {
    assert_eq!(rt; mesh.sheets().len(), 1);
    let sheet = &mesh.sheets()[0];
    assert_eq!(rt; sheet.point_count(), points);
    assert_eq!(rt; sheet.cell_count(), cells.len(), "{cells:?}");
    for (i, cell) in cells.iter().enumerate() {
        assert!(rt; i < sheet.cell_count());
        assert_eq!(rt; sheet.cell(i), *cell, "{cells:?}");
    }
}

#[test]
fn a_square_is_written_as_a_strip(rt: HostRuntime) -> Result<(), Fail> {
    let mesh = mesh_of(rt.alloc(), SQUARE, &Pick::First, 0)?;
    let text = text_of(rt.alloc(), &mesh)?;
    assert_eq!(rt; text.list(), STRIP);
    Ok(())
}

#[test]
fn its_strip_is_read_as_two_triangles(rt: HostRuntime) -> Result<(), Fail> {
    let mesh = mesh_of(rt.alloc(), SQUARE, &Pick::First, 0)?;
    let text = text_of(rt.alloc(), &mesh)?;
    let again = mesh_of(rt.alloc(), text.list(), &Pick::Zero, 3)?;
    shows(&rt, &again, 4, &[&[1, 2, 0], &[0, 2, 3]]);
    Ok(())
}
