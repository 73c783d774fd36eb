//! Rows counted by hand, by pieces: boundaries of tetrahedra, and a contour joined and merged.

ghost use Rattle.std.specs.Prelude.{IfOk};
ghost use Rattle.viz_piece_divisions.specs.Answers.{IsOfMesh};

use crate::tests::compared::layer_size;
use crate::tests::images::image_with;
use crate::tests::pieces::{sections_of, tets_of};
use std::alloc::Global;
use std::process::Abort;
use std::test::Fail;
use viz_base::Shared;
use viz_column::Kind8;
use viz_dataset::Image;
use viz_fraction::Form;
use viz_mesh_parts::{append_parts, boundary_part, merge_part};
use viz_parts::Part;
use viz_piece_plain::{Piece, is_piece, of_mesh};

/// Four points along each side.
const BOX: [u32; 6] = [0, 3, 0, 3, 0, 3];

/// One cube of points, and the contour at 5 that cuts its last corner off.
const CUBE: [u32; 6] = [0, 1, 0, 1, 0, 1];

const CONTOUR: Form = Form {
    a: 0,
    b: 0,
    c: 0,
    q: 1,
    r: 5,
};

// The part, which is one of a mesh.
fn mesh(part: Part) -> Result<Part, Fail>
    ensures { IfOk result IsOfMesh }
{
    Ok(of_mesh(part).ok_or("a part of a mesh")?)
}

// How many cells and points a part has.
fn counts(part: &Part) -> (usize, usize) {
    let mut cells: usize = 0;
    let mut points: usize = 0;
    if let Part::Mesh(sheets) = part {
        for sheet in sheets {
            cells = cells.saturating_add(sheet.sheet().cell_count());
            points = points.saturating_add(sheet.sheet().point_count());
        }
    }
    (cells, points)
}

// A piece of what is made of an image, of whose facets are those of the piece where it has fewer
// corners.
fn asked(bounds: [u32; 6], p: u32, n: u32, ghosts: u32, fewer: usize) -> Piece {
    Piece {
        p,
        n,
        ghosts,
        unit: layer_size(bounds),
        fewer,
    }
}

// The tetrahedra of a piece of an image.
fn tets_piece(alloc: Global, image: &Image, p: u32, n: u32, ghosts: u32) -> Result<Part, Fail>
    ensures { IfOk result IsOfMesh }
{
    if p >= n {
        return Err("a piece of some")?;
    }
    mesh(tets_of(alloc, image, p, n, ghosts)?)
}

// The boundary of a part.
fn bounded(alloc: Global, part: &Part, ghosts: u32) -> Result<Part, Fail>
    requires mesh { IsOfMesh part.now }
    ensures { IfOk result IsOfMesh }
{
    mesh(boundary_part(alloc, part, ghosts)?)
}

// The boundary of a piece's tetrahedra is that piece of the boundary of all, and has none.
fn shows_boundary(
    rt: &impl Abort,
    alloc: Global,
    image: &Image,
    tets: &Part,
    boundary: &Part,
    (p, n): (u32, u32),
) -> Result<(), Fail> {
    let part = tets_piece(alloc, image, p, n, 2)?;
    let first = bounded(alloc, &part, 1)?;
    assert!(rt;
        is_piece(alloc, tets, boundary, &first, asked(BOX, p, n, 1, 1))?,
        "{p} {n}"
    );
    let second = bounded(alloc, &first, 0)?;
    assert_eq!(rt; counts(&second), (0, 0), "{p} {n}");
    Ok(())
}

#[test]
fn boundary_of_tets(rt: HostRuntime) -> Result<(), Fail> {
    let alloc = rt.alloc();
    let image = image_with(alloc, Kind8::U8, BOX, &[0; 64])?;
    let tets = tets_piece(alloc, &image, 0, 1, 0)?;
    assert_eq!(rt; counts(&tets), (162, 64));
    let boundary = bounded(alloc, &tets, 0)?;
    assert_eq!(rt; counts(&boundary), (108, 56));
    for n in [1, 3, 7] {
        for p in 0..n {
            shows_boundary(&rt, alloc, &image, &tets, &boundary, (p, n))?;
        }
    }
    Ok(())
}

// The contour of a piece of an image, twice.
fn joined(alloc: Global, image: &Image, p: u32, n: u32) -> Result<Part, Fail>
    ensures { IfOk result IsOfMesh }
{
    if p >= n {
        return Err("a piece of some")?;
    }
    let part = mesh(sections_of(alloc, image, p, n, 0, &[CONTOUR])?)?;
    let one = Shared::new(alloc, part)?;
    let two = one.copy()?;
    let inputs = vec![in alloc; one, two]?;
    mesh(append_parts(alloc, &inputs)?)
}

#[test]
fn append_then_merge(rt: HostRuntime) -> Result<(), Fail> {
    let alloc = rt.alloc();
    let image = image_with(alloc, Kind8::I32, CUBE, &[0, 0, 0, 0, 0, 0, 0, 9])?;
    let tets = tets_piece(alloc, &image, 0, 1, 0)?;
    let all = joined(alloc, &image, 0, 1)?;
    assert_eq!(rt; counts(&all), (12, 14));
    assert_eq!(rt; counts(&merge_part(alloc, &all)?), (12, 7));
    for n in [1, 3] {
        for p in 0..n {
            let part = joined(alloc, &image, p, n)?;
            let found = is_piece(alloc, &tets, &all, &part, asked(CUBE, p, n, 0, 0))?;
            assert!(rt; found, "{p} {n}");
        }
    }
    Ok(())
}
