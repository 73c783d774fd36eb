//! Meshes of up to 40 cells, cut in 1 to 9 pieces with 0 to 3 ghost levels, and put together again.

use crate::all_pieces;
use crate::tests::plain::{Asked, Row, Shape, cells_of, narrow, shows_part, shows_sheet};
use crate::tests::sheets::sheet_in;
use std::alloc::{AllocError, Global};
use std::process::Abort;
use std::test::Fail;
use viz_dataset::Dataset;
use viz_parts::{Part, PartSheet};
use viz_piece_stitch::stitch;
use viz_sheet::{Mesh, Sheet};

// A row of small points by names of one leaf, each cell of which has all but the first point of the
// one before.
fn strip(shape: Shape, cells: u32, points: u32) -> Row {
    Row {
        shape,
        cells,
        turn: 1,
        points,
        leaves: 1,
        wide: false,
    }
}

// A row whose cells go round all points again and again, so that cells of far pieces meet.
fn round(shape: Shape, cells: u32, leaves: u32, wide: bool) -> Row {
    Row {
        shape,
        cells,
        turn: 7,
        points: 23,
        leaves,
        wide,
    }
}

// The sheets of rows.
fn sheets_of(alloc: Global, rows: &[Row]) -> Result<Vec<Sheet>, Fail> {
    let mut sheets = Vec::new(alloc);
    for row in rows {
        let cells = cells_of(alloc, *row)?;
        sheets.push(sheet_in(alloc, *row, &cells)?)?;
    }
    Ok(sheets)
}

// The parts are all pieces, each as the plain program makes it.
fn shows_pieces(
    rt: &impl Abort,
    alloc: Global,
    parts: &[Part],
    rows: &[Row],
    (n, ghosts): (u32, u32),
) -> Result<(), AllocError> {
    assert_eq!(rt; parts.len(), n as usize);
    for (p, part) in parts.iter().enumerate() {
        let asked = Asked {
            p: narrow(p),
            n,
            ghosts,
        };
        match part {
            Part::Mesh(sheets) => shows_piece(rt, alloc, sheets, rows, asked)?,
            Part::Image(_) => assert!(rt; false, "a piece {asked:?}"),
        }
    }
    Ok(())
}

// The parts of sheets are those of a piece.
fn shows_piece(
    rt: &impl Abort,
    alloc: Global,
    sheets: &[PartSheet],
    rows: &[Row],
    asked: Asked,
) -> Result<(), AllocError> {
    assert_eq!(rt; sheets.len(), rows.len());
    for (part, row) in sheets.iter().zip(rows) {
        shows_part(rt, alloc, part, *row, asked)?;
    }
    Ok(())
}

// The dataset is the mesh of rows.
fn shows_mesh(
    rt: &impl Abort,
    alloc: Global,
    whole: &Dataset,
    rows: &[Row],
) -> Result<(), AllocError> {
    match whole {
        Dataset::Mesh(mesh) => shows_sheets(rt, alloc, mesh.sheets(), rows),
        Dataset::Image(_) => {
            assert!(rt; false, "a mesh");
            Ok(())
        }
    }
}

// The sheets are those of rows.
fn shows_sheets(
    rt: &impl Abort,
    alloc: Global,
    sheets: &[Sheet],
    rows: &[Row],
) -> Result<(), AllocError> {
    assert_eq!(rt; sheets.len(), rows.len());
    for (sheet, row) in sheets.iter().zip(rows) {
        shows_sheet(rt, sheet, *row, &cells_of(alloc, *row)?);
    }
    Ok(())
}

// Rows cut in pieces with so many ghost levels, from pieces with more, and put together again.
fn cut_and_stitched(
    rt: &impl Abort,
    alloc: Global,
    rows: &[Row],
    (n, more, ghosts): (u32, u32, u32),
) -> Result<(), Fail> {
    if n == 0 || ghosts > more {
        return Err("a piece of some")?;
    }
    let mesh = Mesh::new(sheets_of(alloc, rows)?);
    let parts = all_pieces(alloc, mesh, n, more, ghosts)?;
    shows_pieces(rt, alloc, &parts, rows, (n, ghosts))?;
    let whole = stitch(alloc, parts)?;
    shows_mesh(rt, alloc, &whole, rows)?;
    Ok(())
}

// All numbers of pieces and of ghost levels.
fn each_way(rt: &impl Abort, alloc: Global, rows: &[Row]) -> Result<(), Fail> {
    for n in 1..10 {
        for more in 0..4 {
            for ghosts in 0..more + 1 {
                cut_and_stitched(rt, alloc, rows, (n, more, ghosts))?;
            }
        }
    }
    Ok(())
}

#[test]
fn pieces_stitched_are_the_sheet(rt: HostRuntime) -> Result<(), Fail> {
    for row in [
        // Cells of each type that meet their neighbours; of vertices those of one point.
        strip(Shape::Vertices, 12, 5),
        strip(Shape::Lines, 20, 21),
        strip(Shape::Triangles, 40, 42),
        strip(Shape::Tetrahedra, 25, 28),
        strip(Shape::Mixed, 30, 33),
        // No cells, and fewer than pieces.
        strip(Shape::Triangles, 0, 0),
        strip(Shape::Triangles, 1, 3),
        strip(Shape::Mixed, 4, 7),
    ] {
        each_way(&rt, rt.alloc(), &[row])?;
    }
    Ok(())
}

#[test]
fn cells_of_far_pieces_meet(rt: HostRuntime) -> Result<(), Fail> {
    for row in [
        // Names of 1, 2, 4 and 8 leaves, with points in half the room and in all.
        round(Shape::Triangles, 40, 1, true),
        round(Shape::Triangles, 40, 2, false),
        round(Shape::Lines, 30, 4, true),
        round(Shape::Vertices, 40, 8, false),
        round(Shape::Mixed, 24, 2, true),
    ] {
        each_way(&rt, rt.alloc(), &[row])?;
    }
    Ok(())
}

#[test]
fn sheets_are_stitched_apart(rt: HostRuntime) -> Result<(), Fail> {
    let (long, short) = (
        round(Shape::Triangles, 31, 2, false),
        strip(Shape::Lines, 3, 4),
    );
    each_way(&rt, rt.alloc(), &[long, short])?;
    each_way(
        &rt,
        rt.alloc(),
        &[short, strip(Shape::Vertices, 0, 0), long],
    )?;
    // No sheets.
    each_way(&rt, rt.alloc(), &[])
}
