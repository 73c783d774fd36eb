//! What each filter makes of each piece of meshes of up to 40 cells, against a plain slow program.

use crate::tests::filters::{Filter, made_of};
use crate::tests::meshes::{Row, piece};
use std::alloc::Global;
use std::process::Abort;
use std::test::Fail;
use viz_parts::Part;
use viz_piece_plain::{Piece, is_piece, of_mesh};

// What a filter makes for a piece, of the piece that it asks for.
fn made_piece(
    alloc: Global,
    rows: &[Row],
    filter: Filter,
    (p, n, ghosts): (u32, u32, u32),
) -> Result<Part, Fail> {
    let more = match filter {
        Filter::Boundary => ghosts.saturating_add(1),
        _ => ghosts,
    };
    let part = of_mesh(piece(alloc, rows, p, n, more)?).ok_or("a part of a mesh")?;
    made_of(alloc, filter, part, ghosts)
}

// How many corners fewer a made cell has than the cell that it is made of.
fn fewer(filter: Filter) -> usize {
    match filter {
        Filter::Boundary => 1,
        _ => 0,
    }
}

// What a filter makes for each piece of a mesh is that piece of what it makes of the mesh.
fn shows_pieces(rt: &impl Abort, alloc: Global, rows: &[Row], filter: Filter) -> Result<(), Fail> {
    let input = piece(alloc, rows, 0, 1, 0)?;
    let made = made_piece(alloc, rows, filter, (0, 1, 0))?;
    for n in 1..8 {
        for p in 0..n {
            for ghosts in 0..3 {
                let part = made_piece(alloc, rows, filter, (p, n, ghosts))?;
                let asked = Piece {
                    p,
                    n,
                    ghosts,
                    unit: 1,
                    fewer: fewer(filter),
                };
                let found = is_piece(alloc, &input, &made, &part, asked)?;
                assert!(rt; found, "{filter:?} {asked:?} {rows:?}");
            }
        }
    }
    Ok(())
}

// The same of all filters.
fn shows_filters(rt: &impl Abort, alloc: Global, rows: &[Row]) -> Result<(), Fail> {
    for filter in [
        Filter::Select(1, 4, true),
        Filter::Select(3, 3, false),
        Filter::Section,
        Filter::Boundary,
        Filter::Append,
    ] {
        shows_pieces(rt, alloc, rows, filter)?;
    }
    Ok(())
}

// A row of cells of so many points, or of 1 to 4 in turn.
fn row(size: u8, cells: u32, turn: u32, points: u32) -> Row {
    Row {
        size,
        cells,
        turn,
        points,
    }
}

// Whether the facets for piece 1 of 3 of a strip of triangles, with so many ghost levels, are those
// of a piece.
fn are_facets_of(alloc: Global, ghosts: u32, asked: Piece) -> Result<bool, Fail> {
    let rows = [row(3, 9, 1, 11)];
    let input = piece(alloc, &rows, 0, 1, 0)?;
    let made = made_piece(alloc, &rows, Filter::Boundary, (0, 1, 0))?;
    let part = made_piece(alloc, &rows, Filter::Boundary, (1, 3, ghosts))?;
    Ok(is_piece(alloc, &input, &made, &part, asked)?)
}

#[test]
fn another_part_is_no_piece(rt: HostRuntime) -> Result<(), Fail> {
    let one = Piece {
        p: 1,
        n: 3,
        ghosts: 1,
        unit: 1,
        fewer: 1,
    };
    for (ghosts, asked, want) in [
        (1, one, true),
        (0, one, false),
        (2, one, false),
        (1, Piece { p: 0, ..one }, false),
        (1, Piece { n: 2, ..one }, false),
        (1, Piece { unit: 2, ..one }, false),
        (1, Piece { fewer: 0, ..one }, false),
    ] {
        assert_eq!(rt;
            are_facets_of(rt.alloc(), ghosts, asked)?,
            want,
            "{ghosts} {asked:?}"
        );
    }
    Ok(())
}

#[test]
fn pieces_go_to_pieces(rt: HostRuntime) -> Result<(), Fail> {
    for one in [
        // Cells that meet their neighbours.
        row(2, 20, 1, 21),
        row(3, 40, 1, 42),
        row(4, 25, 1, 28),
        row(0, 30, 1, 33),
        // Cells that go round all points again and again, so that cells of far pieces meet.
        row(3, 40, 7, 41),
        row(4, 30, 7, 41),
        row(0, 36, 7, 41),
        // No cells, and fewer than pieces.
        row(3, 0, 1, 0),
        row(3, 4, 1, 6),
    ] {
        shows_filters(&rt, rt.alloc(), &[one])?;
    }
    Ok(())
}

#[test]
fn sheets_are_filtered_apart(rt: HostRuntime) -> Result<(), Fail> {
    shows_filters(&rt, rt.alloc(), &[row(4, 12, 1, 15), row(3, 9, 2, 20)])?;
    // No sheets.
    shows_filters(&rt, rt.alloc(), &[])
}
