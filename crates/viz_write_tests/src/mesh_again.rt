//! Meshes that are written and read again; what is wanted was counted by hand.

use std::alloc::Global;
use std::process::Abort;
use std::test::Fail;
use viz_base::{Bytes, Pick};
use viz_dataset::Dataset;
use viz_fraction::{Point5, point};
use viz_image_write::Style;
use viz_legacy_read::read;
use viz_mesh_write::write_mesh;
use viz_round_trip::{
    no_other_mesh_is_read, written_meshes_are_read_again, written_types_are_wanted,
};
use viz_sheet::{Leaves, Mesh, Mixed, Places, Ranks, Sheet, are_cells, sheet_of};

/// Five thirds and the like, which a tenth doesn't divide, and whole points; the last number is the
/// weight.
const FIRST: [[i128; 5]; 4] = [
    [5, -5, 1, 7, 3],
    [0, 0, 0, -1, 2],
    [1, 0, 0, 4, 1],
    [0, 0, 1, 0, 1],
];

/// The points of a second sheet: one along y, and half of one along z with the scalar 9/2.
const SECOND: [[i128; 5]; 2] = [[0, 1, 0, 0, 1], [0, 0, 1, 9, 2]];

// The place (x, y, z) / w with the scalar s / w.
fn point_of(numbers: [i128; 5]) -> Result<Point5, Fail> {
    let [x, y, z, s, w] = numbers;
    if w <= 0 {
        return Err("a positive weight")?;
    }
    match point(x, y, z, s, w) {
        Ok(p) => Ok(p),
        Err(_) => Err("a narrow point")?,
    }
}

/// The number of points of a cell, and their ranks with filler behind them.
type Cell = (u8, [u32; 4]);

// A cell of any size.
fn cell_of(size: u8, ranks: [u32; 4]) -> Result<Mixed, Fail> {
    if size > 4 {
        return Err("at most four points")?;
    }
    Ok(Mixed::new(size, ranks))
}

// Points in all the room.
fn places_of(alloc: Global, rows: &[[i128; 5]]) -> Result<Places, Fail> {
    let mut points = Vec::new(alloc);
    for row in rows {
        points.push(point_of(*row)?)?;
    }
    Ok(Places::Wide(points))
}

// Cells of any sizes.
fn ranks_of(alloc: Global, cells: &[Cell]) -> Result<Ranks, Fail> {
    let mut list = Vec::new(alloc);
    for (size, ranks) in cells {
        list.push(cell_of(*size, *ranks)?)?;
    }
    Ok(Ranks::Any(list))
}

// The sheet of cells of points that are named by their numbers.
fn sheet_by(alloc: Global, count: u32, rows: &[[i128; 5]], cells: &[Cell]) -> Result<Sheet, Fail> {
    let places = places_of(alloc, rows)?;
    let ranks = ranks_of(alloc, cells)?;
    let leaves = Leaves::of_points(alloc, count)?;
    if !are_cells(&leaves, &places, &ranks) {
        return Err("cells of ascending names")?;
    }
    let sheet = sheet_of(alloc, leaves, places, ranks)?;
    Ok(sheet)
}

// The text of two sheets, with one place.
fn text_of(alloc: Global, first: Sheet, second: Sheet, binary: bool) -> Result<Bytes, Fail> {
    let mut sheets = Vec::new(alloc);
    sheets.push(first)?;
    sheets.push(second)?;
    let style = Style {
        binary,
        digits: 1,
        version: 3,
    };
    let text = write_mesh(alloc, &Mesh::new(sheets), &style)?;
    Ok(text)
}

// The mesh that is read of a text, with one place.
fn read_of(alloc: Global, text: &[u8]) -> Result<Mesh, Fail> {
    match read(alloc, text, &Pick::First, 1) {
        Ok(Dataset::Mesh(mesh)) => Ok(mesh),
        Ok(Dataset::Image(_)) => Err("a mesh")?,
        Err(_) => Err("no fault")?,
    }
}

// A mesh has one sheet, with these points and cells.
fn shows(rt: &impl Abort, mesh: &Mesh, points: &[[i128; 5]], cells: &[&[u32]]) {
    assert_eq!(rt; mesh.sheets().len(), 1);
    let sheet = &mesh.sheets()[0];
    assert_eq!(rt; sheet.point_count(), points.len(), "{points:?}");
    for (rank, want) in points.iter().enumerate() {
        assert!(rt; rank < sheet.point_count());
        let p = sheet.point(rank);
        assert_eq!(rt; [p.x(), p.y(), p.z(), p.s(), p.w()], *want, "{rank}");
    }
    assert_eq!(rt; sheet.cell_count(), cells.len(), "{cells:?}");
    for (i, cell) in cells.iter().enumerate() {
        assert!(rt; i < sheet.cell_count());
        assert_eq!(rt; sheet.cell(i), *cell, "{cells:?}");
    }
}

// Two sheets in both forms: the first with these points and cells, the second with a line.
fn again(
    rt: &impl Abort,
    alloc: Global,
    count: u32,
    rows: &[[i128; 5]],
    cells: &[Cell],
    points: &[[i128; 5]],
    want: &[&[u32]],
) -> Result<(), Fail> {
    let line = [(2, [1, 0, 9, 9])];
    for binary in [false, true] {
        let first = sheet_by(alloc, count, rows, cells)?;
        let second = sheet_by(alloc, 2, &SECOND, &line)?;
        let text = text_of(alloc, first, second, binary)?;
        let mesh = read_of(alloc, text.list())?;
        shows(rt, &mesh, points, want);
    }
    Ok(())
}

// Vertices come first, then lines and then triangles; -17 tenths are below -5/3.
#[test]
fn polydata_is_read_by_kinds(rt: HostRuntime) -> Result<(), Fail> {
    let cells = [(2, [0, 2, 9, 9]), (1, [1, 9, 9, 9]), (3, [2, 1, 0, 9])];
    let points = [
        [16, -17, 3, 20, 10],
        [0, 0, 0, -1, 1],
        [1, 0, 0, 4, 1],
        [0, 1, 0, 0, 1],
        [0, 0, 1, 8, 2],
    ];
    let want: [&[u32]; 4] = [&[1], &[0, 2], &[4, 3], &[2, 1, 0]];
    again(&rt, rt.alloc(), 3, &FIRST[..3], &cells, &points, &want)
}

#[test]
fn a_grid_is_read_in_order(rt: HostRuntime) -> Result<(), Fail> {
    let cells = [(3, [2, 1, 0, 9]), (4, [0, 1, 2, 3]), (1, [1, 9, 9, 9])];
    let points = [
        [16, -17, 3, 20, 10],
        [0, 0, 0, -1, 1],
        [1, 0, 0, 4, 1],
        [0, 0, 1, 0, 1],
        [0, 1, 0, 0, 1],
        [0, 0, 1, 8, 2],
    ];
    let want: [&[u32]; 4] = [&[2, 1, 0], &[0, 1, 2, 3], &[1], &[5, 4]];
    again(&rt, rt.alloc(), 4, &FIRST, &cells, &points, &want)
}

#[test]
fn laws_can_be_called(_rt: HostRuntime) -> Result<(), Fail> {
    written_meshes_are_read_again();
    no_other_mesh_is_read();
    written_types_are_wanted();
    Ok(())
}
