//! Sheets made of rows.

use crate::tests::plain::{Row, Shape, leaves_of, point_of};
use std::alloc::{AllocError, Global};
use std::test::Fail;
use viz_fraction::{Point5, point, small};
use viz_sheet::{Leaves, Mixed, Places, Ranks, Sheet, are_cells, sheet_of};

/// The sheet of a row, whose cells are these.
pub(super) fn sheet_in(alloc: Global, row: Row, cells: &[Vec<u32>]) -> Result<Sheet, Fail> {
    let leaves = names(alloc, row)?;
    let places = places(alloc, row)?;
    let ranks = match row.shape {
        Shape::Vertices => Ranks::Vertices(vertices(alloc, cells)?),
        Shape::Lines => Ranks::Lines(lines(alloc, cells)?),
        Shape::Triangles => Ranks::Triangles(triangles(alloc, cells)?),
        Shape::Tetrahedra => Ranks::Tetrahedra(tetrahedra(alloc, cells)?),
        Shape::Mixed => Ranks::Any(mixed(alloc, cells)?),
    };
    if !are_cells(&leaves, &places, &ranks) {
        return Err("cells of ascending names")?;
    }
    Ok(sheet_of(alloc, leaves, places, ranks)?)
}

// The names of a row's points.
fn names(alloc: Global, row: Row) -> Result<Leaves, AllocError> {
    match row.leaves {
        1 => Ok(Leaves::One(ones(alloc, row.points)?)),
        2 => Ok(Leaves::Two(twos(alloc, row.points)?)),
        4 => Ok(Leaves::Four(fours(alloc, row.points)?)),
        _ => Ok(Leaves::Eight(eights(alloc, row.points)?)),
    }
}

// So many names of 1 leaf.
fn ones(alloc: Global, points: u32) -> Result<Vec<[u32; 1]>, AllocError> {
    let mut names = Vec::new(alloc);
    for number in 0..points {
        let [.., d] = leaves_of(number);
        names.push([d])?;
    }
    Ok(names)
}

// So many names of 2 leaves.
fn twos(alloc: Global, points: u32) -> Result<Vec<[u32; 2]>, AllocError> {
    let mut names = Vec::new(alloc);
    for number in 0..points {
        let [.., c, d] = leaves_of(number);
        names.push([c, d])?;
    }
    Ok(names)
}

// So many names of 4 leaves.
fn fours(alloc: Global, points: u32) -> Result<Vec<[u32; 4]>, AllocError> {
    let mut names = Vec::new(alloc);
    for number in 0..points {
        let [.., a, b, c, d] = leaves_of(number);
        names.push([a, b, c, d])?;
    }
    Ok(names)
}

// So many names of 8 leaves.
fn eights(alloc: Global, points: u32) -> Result<Vec<[u32; 8]>, AllocError> {
    let mut names = Vec::new(alloc);
    for number in 0..points {
        names.push(leaves_of(number))?;
    }
    Ok(names)
}

// The point with a number.
fn narrow_point(number: u32) -> Result<Point5, Fail> {
    let [x, y, z, s, _] = point_of(number);
    match point(x, y, z, s, 1) {
        Ok(p) => Ok(p),
        Err(_) => Err("a narrow point")?,
    }
}

// The points of a row.
fn places(alloc: Global, row: Row) -> Result<Places, Fail> {
    if row.wide {
        wide_points(alloc, row.points)
    } else {
        small_points(alloc, row.points)
    }
}

// So many points in all the room.
fn wide_points(alloc: Global, points: u32) -> Result<Places, Fail> {
    let mut places = Vec::new(alloc);
    for number in 0..points {
        places.push(narrow_point(number)?)?;
    }
    Ok(Places::Wide(places))
}

// So many points in half the room.
fn small_points(alloc: Global, points: u32) -> Result<Places, Fail> {
    let mut places = Vec::new(alloc);
    for number in 0..points {
        match small(&narrow_point(number)?) {
            Some(p) => places.push(p)?,
            None => Err("a small point")?,
        }
    }
    Ok(Places::Small(places))
}

// The cells of 1 point.
fn vertices(alloc: Global, cells: &[Vec<u32>]) -> Result<Vec<[u32; 1]>, Fail> {
    let mut own = Vec::new(alloc);
    for cell in cells {
        match cell.as_slice() {
            [a] => own.push([*a])?,
            _ => Err("a vertex")?,
        }
    }
    Ok(own)
}

// The cells of 2 points.
fn lines(alloc: Global, cells: &[Vec<u32>]) -> Result<Vec<[u32; 2]>, Fail> {
    let mut own = Vec::new(alloc);
    for cell in cells {
        match cell.as_slice() {
            [a, b] => own.push([*a, *b])?,
            _ => Err("a line")?,
        }
    }
    Ok(own)
}

// The cells of 3 points.
fn triangles(alloc: Global, cells: &[Vec<u32>]) -> Result<Vec<[u32; 3]>, Fail> {
    let mut own = Vec::new(alloc);
    for cell in cells {
        match cell.as_slice() {
            [a, b, c] => own.push([*a, *b, *c])?,
            _ => Err("a triangle")?,
        }
    }
    Ok(own)
}

// The cells of 4 points.
fn tetrahedra(alloc: Global, cells: &[Vec<u32>]) -> Result<Vec<[u32; 4]>, Fail> {
    let mut own = Vec::new(alloc);
    for cell in cells {
        match cell.as_slice() {
            [a, b, c, d] => own.push([*a, *b, *c, *d])?,
            _ => Err("a tetrahedron")?,
        }
    }
    Ok(own)
}

// The cells of 1 to 4 points.
fn mixed(alloc: Global, cells: &[Vec<u32>]) -> Result<Vec<Mixed>, Fail> {
    let mut own = Vec::new(alloc);
    for cell in cells {
        match cell.as_slice() {
            [a] => own.push(Mixed::new(1, [*a, 0, 0, 0]))?,
            [a, b] => own.push(Mixed::new(2, [*a, *b, 0, 0]))?,
            [a, b, c] => own.push(Mixed::new(3, [*a, *b, *c, 0]))?,
            [a, b, c, d] => own.push(Mixed::new(4, [*a, *b, *c, *d]))?,
            _ => Err("a cell of 1 to 4 points")?,
        }
    }
    Ok(own)
}
