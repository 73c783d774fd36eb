//! Parts cut from an image and from a strip of few cells, counted by hand, and shared parts.

ghost use Rattle.std.specs.Prelude.{IfOk};
ghost use Rattle.viz_piece_restrict.specs.Restricting.{IsOneOfMany, IsSomeAnswer};

use std::alloc::Global;
use std::process::Abort;
use std::test::Fail;
use viz_base::Shared;
use viz_column::Column;
use viz_dataset::{Image, is_origin, is_spacing};
use viz_extent::Extent;
use viz_fraction::point;
use viz_parts::{Part, PartSheet, Request, covers};
use viz_piece_restrict::{restrict, restrict_shared, whole_image, whole_mesh};
use viz_sheet::{Leaves, Mesh, Places, Ranks, Sheet, are_cells, sheet_of};

/// How many cells the strip has.
const CELLS: u32 = 10;

/// All of a mesh.
const WHOLE: Request = Request::Piece {
    p: 0,
    n: 1,
    ghosts: 0,
};

// An image whose numbers are 0, 1, 2 .. in their order.
fn counted_image(alloc: Global, bounds: [u32; 6]) -> Result<Image, Fail> {
    let unit = 1_000_000_000;
    let extent = Extent::new(bounds).ok_or("an extent")?;
    let mut numbers = Vec::new(alloc);
    for n in 0..extent.count() {
        numbers.push(n)?;
    }
    let column = Column::of(numbers);
    let spacing = [unit, unit, unit];
    if !is_origin(&[0, 0, 0]) || !is_spacing(&spacing) || column.len() != extent.count() {
        return Err("an image")?;
    }
    Ok(Image::new(extent, [0, 0, 0], spacing, column))
}

// The part for a request, cut from a part that covers it.
fn cut(alloc: Global, part: &Part, kept: &Request, wanted: &Request) -> Result<Part, Fail>
    requires counted { IsOneOfMany wanted.now }
    requires answers { IsSomeAnswer kept.now part.now }
    ensures { IfOk result (IsSomeAnswer wanted.now) }
{
    if !covers(kept, wanted) {
        return Err("a covered request")?;
    }
    let cut = restrict(alloc, part, kept, wanted)?;
    Ok(cut)
}

// The numbers of a block of an image of 4 by 3 by 2 points.
fn block(alloc: Global, bounds: [u32; 6]) -> Result<Part, Fail> {
    let image = counted_image(alloc, [0, 3, 0, 2, 0, 1])?;
    let kept = Request::Block(image.extent());
    let wanted = Request::Block(Extent::new(bounds).ok_or("a block")?);
    let whole = whole_image(image);
    cut(alloc, &whole, &kept, &wanted)
}

// The part is the image on these bounds, with these numbers.
fn shows_block(rt: &impl Abort, part: &Part, bounds: [u32; 6], numbers: &[u64]) {
    match part {
        Part::Image(image) => {
            assert_eq!(rt; image.extent().bounds(), bounds);
            assert_eq!(rt;
                image.column().numbers::<u64>().unwrap_or(&[]),
                numbers,
                "{bounds:?}"
            );
        }
        Part::Mesh(_) => assert!(rt; false, "{bounds:?}"),
    }
}

#[test]
fn a_block_has_the_same_numbers(rt: HostRuntime) -> Result<(), Fail> {
    for (bounds, numbers) in [
        ([1, 2, 1, 2, 0, 1], [5, 6, 9, 10, 17, 18, 21, 22].as_slice()),
        ([3, 3, 2, 2, 1, 1], [23].as_slice()),
        ([0, 3, 0, 0, 1, 1], [12, 13, 14, 15].as_slice()),
    ] {
        shows_block(&rt, &block(rt.alloc(), bounds)?, bounds, numbers);
    }
    Ok(())
}

// The cells of a strip: cell i has points i to i + 2.
fn triangles(alloc: Global) -> Result<Ranks, Fail> {
    let mut cells = Vec::new(alloc);
    for i in 0..CELLS {
        cells.push([i, i + 1, i + 2])?;
    }
    Ok(Ranks::Triangles(cells))
}

// So many points along x.
fn points(alloc: Global, count: u32) -> Result<Places, Fail> {
    let mut points = Vec::new(alloc);
    for i in 0..count {
        match point(i128::from(i), 0, 0, 0, 1) {
            Ok(p) => points.push(p)?,
            Err(_) => Err("a narrow point")?,
        }
    }
    Ok(Places::Wide(points))
}

// The strip.
fn strip(alloc: Global) -> Result<Sheet, Fail> {
    let count = CELLS + 2;
    let leaves = Leaves::of_points(alloc, count)?;
    let places = points(alloc, count)?;
    let ranks = triangles(alloc)?;
    if !are_cells(&leaves, &places, &ranks) {
        return Err("cells of ascending names")?;
    }
    let sheet = sheet_of(alloc, leaves, places, ranks)?;
    Ok(sheet)
}

// All of the mesh that is a strip.
fn whole_strip(alloc: Global) -> Result<Part, Fail>
    ensures { IfOk result (IsSomeAnswer (Request.Piece 0 1 0)) }
{
    let sheet = strip(alloc)?;
    let whole = whole_mesh(alloc, Mesh::new(vec![in alloc; sheet]?))?;
    Ok(whole)
}

// Piece `p` of `n` of a strip, where p is below n.
fn piece(alloc: Global, p: u32, n: u32, ghosts: u32) -> Result<Part, Fail>
    ensures { IfOk result (IsSomeAnswer (Request.Piece p n ghosts)) }
{
    if p >= n {
        return Err("a piece of so many")?;
    }
    let whole = whole_strip(alloc)?;
    cut(alloc, &whole, &WHOLE, &Request::Piece { p, n, ghosts })
}

// The part is of one sheet, whose cells are those of the strip from a first one on, with these
// levels.
fn shows_piece(rt: &impl Abort, part: &Part, first: u32, levels: &[u32]) {
    match part {
        Part::Mesh(sheets) => {
            assert_eq!(rt; sheets.len(), 1);
            for sheet in sheets {
                shows_sheet(rt, sheet, first, levels);
            }
        }
        Part::Image(_) => assert!(rt; false, "{levels:?}"),
    }
}

// The level of a cell and its first rank, where there is one.
fn cell_at(part: &PartSheet, i: usize) -> Option<(u32, u32)> {
    if i >= part.sheet().cell_count() {
        return None;
    }
    match part.sheet().cell(i).first() {
        Some(rank) => Some((part.level(i), *rank)),
        None => None,
    }
}

// The first leaf of the first point and where the point lies along x, where there is one.
fn first_point(sheet: &Sheet) -> Option<(u32, i128)> {
    if sheet.point_count() == 0 {
        return None;
    }
    match sheet.name(0).first() {
        Some(leaf) => Some((*leaf, sheet.point(0).x())),
        None => None,
    }
}

// The sheet has these levels, and its points are those from a first one on.
fn shows_sheet(rt: &impl Abort, part: &PartSheet, first: u32, levels: &[u32]) {
    let mut rank: u32 = 0;
    for (i, level) in levels.iter().enumerate() {
        assert_eq!(rt;
            cell_at(part, i),
            Some((*level, rank)),
            "cell {i} of {levels:?}"
        );
        rank = rank.saturating_add(1);
    }
    assert_eq!(rt; part.sheet().cell_count(), levels.len(), "{levels:?}");
    if !levels.is_empty() {
        let want = Some((first, i128::from(first)));
        assert_eq!(rt; first_point(part.sheet()), want, "{levels:?}");
    }
}

#[test]
fn a_strip_is_cut_into_three(rt: HostRuntime) -> Result<(), Fail> {
    for (p, ghosts, first, levels) in [
        (0, 0, 0, [0, 0, 0].as_slice()),
        (1, 0, 3, [0, 0, 0].as_slice()),
        // The last piece has what is left.
        (2, 0, 6, [0, 0, 0, 0].as_slice()),
        // Triangles share a point with two on either side.
        (0, 1, 0, [0, 0, 0, 1, 1].as_slice()),
        (1, 1, 1, [1, 1, 0, 0, 0, 1, 1].as_slice()),
        (1, 2, 0, [2, 1, 1, 0, 0, 0, 1, 1, 2, 2].as_slice()),
        // Growth ends with the last cell, however many levels are wanted.
        (1, u32::MAX, 0, [2, 1, 1, 0, 0, 0, 1, 1, 2, 2].as_slice()),
    ] {
        shows_piece(&rt, &piece(rt.alloc(), p, 3, ghosts)?, first, levels);
    }
    Ok(())
}

// Piece 1 of 3 with two ghost levels, and of it the same with fewer.
fn fewer(alloc: Global, ghosts: u32) -> Result<Part, Fail> {
    let kept = Request::Piece {
        p: 1,
        n: 3,
        ghosts: 2,
    };
    let part = piece(alloc, 1, 3, 2)?;
    cut(alloc, &part, &kept, &Request::Piece { p: 1, n: 3, ghosts })
}

#[test]
fn a_piece_has_fewer_ghosts(rt: HostRuntime) -> Result<(), Fail> {
    for (ghosts, first, levels) in [
        (0, 3, [0, 0, 0].as_slice()),
        (1, 1, [1, 1, 0, 0, 0, 1, 1].as_slice()),
        (2, 0, [2, 1, 1, 0, 0, 0, 1, 1, 2, 2].as_slice()),
    ] {
        shows_piece(&rt, &fewer(rt.alloc(), ghosts)?, first, levels);
    }
    Ok(())
}

// Whether the part for a wanted request is the whole strip's own one, and not a copy.
fn is_shared(alloc: Global, wanted: &Request) -> Result<bool, Fail>
    requires { IsOneOfMany wanted.now }
{
    let whole = Shared::new(alloc, whole_strip(alloc)?)?;
    if !covers(&WHOLE, wanted) {
        return Err("a covered request")?;
    }
    let part = restrict_shared(alloc, &whole, &WHOLE, wanted)?;
    Ok(part.try_unwrap().is_err())
}

#[test]
fn equal_requests_share(rt: HostRuntime) -> Result<(), Fail> {
    assert!(rt; is_shared(rt.alloc(), &WHOLE)?);
    let half = Request::Piece {
        p: 1,
        n: 2,
        ghosts: 0,
    };
    assert!(rt; !is_shared(rt.alloc(), &half)?);
    Ok(())
}
