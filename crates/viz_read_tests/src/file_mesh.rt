//! Meshes of texts, whose pieces and points were reckoned by hand.

ghost use Rattle.std.specs.Prelude.{◌≡◌, ◌≤◌, length, IfSome, true};

use std::alloc::Global;
use std::process::Abort;
use std::test::Fail;
use viz_column::{Column, Kind8};
use viz_file_mesh::{grid_mesh, poly_mesh, read_pieces_are_cells};
use viz_lex::Lexer;
use viz_mesh_read::{grid, polydata};
use viz_sheet::{Mesh, Places, Ranks};

// Either none is picked, or a number for each point.
fn is_for_each(picked: &Option<Column>, count: u64) -> bool
    ensures { result ≡ true → IfSome picked.now (λ n. length n.items ≡ count) }
{
    match picked {
        Some(column) => column.len() == count,
        None => true,
    }
}

// The mesh of the text of a grid.
fn mesh_of_grid(alloc: Global, text: &[u8], picked: Option<Column>, unit: u8) -> Result<Mesh, Fail>
    requires { unit ≤ 9 }
{
    let mut lexer = Lexer::new(text);
    let file = match grid(alloc, &mut lexer, false, false) {
        Ok(file) => file,
        Err(_) => return Err("a grid")?,
    };
    if !is_for_each(&picked, file.points.count) {
        return Err("a scalar for each point")?;
    }
    let mesh = grid_mesh(alloc, file, picked, unit)?;
    Ok(mesh)
}

// The mesh of the text of polydata.
fn mesh_of_poly(alloc: Global, text: &[u8], picked: Option<Column>, unit: u8) -> Result<Mesh, Fail>
    requires { unit ≤ 9 }
{
    let mut lexer = Lexer::new(text);
    let file = match polydata(alloc, &mut lexer, false, false) {
        Ok(file) => file,
        Err(_) => return Err("polydata")?,
    };
    if !is_for_each(&picked, file.points.count) {
        return Err("a scalar for each point")?;
    }
    let mesh = poly_mesh(alloc, file, picked, unit)?;
    Ok(mesh)
}

// Which array the ranks stand in.
fn array_of(ranks: &Ranks) -> &'static str {
    match ranks {
        Ranks::Vertices(_) => "vertices",
        Ranks::Lines(_) => "lines",
        Ranks::Triangles(_) => "triangles",
        Ranks::Tetrahedra(_) => "tetrahedra",
        Ranks::Any(_) => "any",
    }
}

// The mesh has one sheet, of these points of the file, and these cells by ranks.
fn shows(rt: &impl Abort, mesh: &Mesh, array: &str, kept: &[u32], cells: &[&[u32]]) {
    assert_eq!(rt; mesh.sheets().len(), 1);
    let sheet = &mesh.sheets()[0];
    assert_eq!(rt; array_of(sheet.ranks()), array, "{cells:?}");
    assert_eq!(rt; sheet.point_count(), kept.len(), "{cells:?}");
    for (rank, leaf) in kept.iter().enumerate() {
        assert!(rt; rank < sheet.point_count(), "{cells:?}");
        assert_eq!(rt; sheet.name(rank), [*leaf].as_slice(), "{cells:?}");
        let p = sheet.point(rank);
        assert_eq!(rt;
            [p.x(), p.y(), p.z()],
            [i128::from(*leaf), 0, 7],
            "{cells:?}"
        );
    }
    assert_eq!(rt; sheet.cell_count(), cells.len(), "{cells:?}");
    for (i, cell) in cells.iter().enumerate() {
        assert!(rt; i < sheet.cell_count(), "{cells:?}");
        assert_eq!(rt; sheet.cell(i), *cell, "{cells:?}");
    }
}

#[test]
fn pieces_of_polydata(rt: HostRuntime) -> Result<(), Fail> {
    read_pieces_are_cells();
    for (sections, array, kept, cells) in [
        // a strip, of which each other triangle is turned
        (
            "TRIANGLE_STRIPS 1 6 5 0 1 2 3 4",
            "triangles",
            [0, 1, 2, 3, 4].as_slice(),
            [[0, 1, 2].as_slice(), &[2, 1, 3], &[2, 3, 4]].as_slice(),
        ),
        // triangles that repeat an index, and then two points that no piece has
        (
            "TRIANGLE_STRIPS 1 6 5 0 1 2 2 3",
            "triangles",
            &[0, 1, 2],
            &[&[0, 1, 2]],
        ),
        // a fan, of points that aren't the first
        (
            "POLYGONS 1 5 4 1 2 3 4",
            "triangles",
            &[1, 2, 3, 4],
            &[&[0, 1, 2], &[0, 2, 3]],
        ),
        (
            "LINES 1 4 3 4 2 0",
            "lines",
            &[0, 2, 4],
            &[&[2, 1], &[1, 0]],
        ),
        ("VERTICES 1 3 2 3 1", "vertices", &[1, 3], &[&[1], &[0]]),
        // vertices come first, then lines, polygons and strips
        (
            "TRIANGLE_STRIPS 1 4 3 0 1 2 POLYGONS 1 4 3 2 1 0 LINES 1 3 2 0 1 VERTICES 1 2 1 2",
            "any",
            &[0, 1, 2],
            &[&[2], &[0, 1], &[2, 1, 0], &[0, 1, 2]],
        ),
        ("", "triangles", &[], &[]),
    ] {
        let text = format!(in rt.alloc(); "POINTS 5 int 0 0 7 1 0 7 2 0 7 3 0 7 4 0 7 {sections}")?;
        let mesh = mesh_of_poly(rt.alloc(), text.as_bytes(), None, 0)?;
        shows(&rt, &mesh, array, kept, cells);
    }
    Ok(())
}

#[test]
fn pieces_of_grids(rt: HostRuntime) -> Result<(), Fail> {
    for (cells_and_types, array, kept, cells) in [
        (
            "CELLS 4 14 4 0 1 2 3 3 3 2 1 2 4 0 1 3 CELL_TYPES 4 10 5 3 1",
            "any",
            [0, 1, 2, 3, 4].as_slice(),
            [[0, 1, 2, 3].as_slice(), &[3, 2, 1], &[4, 0], &[3]].as_slice(),
        ),
        // one size alone
        (
            "CELLS 2 10 4 4 3 1 0 4 0 1 3 4 CELL_TYPES 2 10 10",
            "tetrahedra",
            &[0, 1, 3, 4],
            &[&[3, 2, 1, 0], &[0, 1, 2, 3]],
        ),
        (
            "CELLS 1 4 3 4 3 1 CELL_TYPES 1 5",
            "triangles",
            &[1, 3, 4],
            &[&[2, 1, 0]],
        ),
        (
            "CELLS 1 3 2 4 3 CELL_TYPES 1 3",
            "lines",
            &[3, 4],
            &[&[1, 0]],
        ),
        ("CELLS 1 2 1 2 CELL_TYPES 1 1", "vertices", &[2], &[&[0]]),
        // cells that repeat an index
        (
            "CELLS 3 13 4 0 1 2 0 4 0 1 2 3 2 4 4 CELL_TYPES 3 10 10 3",
            "any",
            &[0, 1, 2, 3],
            &[&[0, 1, 2, 3]],
        ),
        (
            "CELLS 2 8 3 0 1 1 3 2 0 1 CELL_TYPES 2 5 5",
            "triangles",
            &[0, 1, 2],
            &[&[2, 0, 1]],
        ),
        ("CELLS 0 0 CELL_TYPES 0", "any", &[], &[]),
    ] {
        let text = format!(in rt.alloc();
            "POINTS 5 int 0 0 7 1 0 7 2 0 7 3 0 7 4 0 7 {cells_and_types}"
        )?;
        let mesh = mesh_of_grid(rt.alloc(), text.as_bytes(), None, 0)?;
        shows(&rt, &mesh, array, kept, cells);
    }
    Ok(())
}

// The numbers of a column of this kind, or none.
fn column_of(alloc: Global, kind: Kind8, numbers: &[i128]) -> Result<Column, Fail> {
    let mut column = Column::new(alloc, kind);
    for n in numbers {
        if !column.kind().fits(*n) {
            return Err("a number in range")?;
        }
        column.push(*n)?;
    }
    Ok(column)
}

#[test]
fn units_and_scalars(rt: HostRuntime) -> Result<(), Fail> {
    let text = b"POINTS 2 short 1500 0 -2 0 0 0 CELLS 1 2 1 0 CELL_TYPES 1 1";
    for (scalar, unit, point) in [
        (None, 0, [1500, 0, -2, 0, 1]),
        (Some(7), 0, [1500, 0, -2, 7, 1]),
        // 1.5, 0 and -0.002
        (None, 3, [750, 0, -1, 0, 500]),
        (Some(7), 3, [750, 0, -1, 3_500, 500]),
        (Some(-1), 9, [750, 0, -1, -500_000_000, 500_000_000]),
    ] {
        let picked = match scalar {
            Some(n) => Some(column_of(rt.alloc(), Kind8::I64, &[n, 5])?),
            None => None,
        };
        assert!(rt; unit <= 9);
        let mesh = mesh_of_grid(rt.alloc(), text, picked, unit)?;
        assert_eq!(rt; mesh.sheets().len(), 1);
        let sheet = &mesh.sheets()[0];
        assert_eq!(rt; sheet.point_count(), 1);
        let p = sheet.point(0);
        assert_eq!(rt; [p.x(), p.y(), p.z(), p.s(), p.w()], point, "{unit}");
        assert!(rt; matches!(sheet.places(), Places::Small(_)), "{unit}");
    }
    Ok(())
}

#[test]
fn wide_points(rt: HostRuntime) -> Result<(), Fail> {
    let most = 18_446_744_073_709_551_615;
    let text = b"POINTS 1 unsigned_long 0 18446744073709551615 3 VERTICES 1 2 1 0";
    let narrow = b"POINTS 1 unsigned_long 0 9223372036854775807 3 VERTICES 1 2 1 0";
    for (text, scalar, y, small) in [
        (text.as_slice(), 0, most, false),
        (narrow, 0, 9_223_372_036_854_775_807, true),
        (narrow, most, 9_223_372_036_854_775_807, false),
    ] {
        let picked = column_of(rt.alloc(), Kind8::U64, &[scalar])?;
        let mesh = mesh_of_poly(rt.alloc(), text, Some(picked), 0)?;
        assert_eq!(rt; mesh.sheets().len(), 1);
        let sheet = &mesh.sheets()[0];
        assert_eq!(rt; sheet.point_count(), 1);
        let p = sheet.point(0);
        assert_eq!(rt; [p.x(), p.y(), p.z(), p.s(), p.w()], [0, y, 3, scalar, 1]);
        assert_eq!(rt; matches!(sheet.places(), Places::Small(_)), small, "{y}");
    }
    Ok(())
}
