//! The triangles in all cubes.

ghost use Rattle.std.specs.Prelude.{◌≡◌, ◌+◌, ◌*◌, ◌<◌, ◌≤◌, ◌^◌, ◌++◌, OnOk, IfOk, length, map};
ghost use Rattle.viz_extent.specs.Extent.{count_of, size_x, plane_size};
ghost use Rattle.viz_grid_section.specs.GridSection.{grid_cells};
ghost use Rattle.viz_grid_section.specs.Steps.Rows.{cells_in_row, cells_in_layer};
ghost use Rattle.viz_flags.specs.Edges.{cells_by};

use crate::cubes::push_cube;
use crate::ends::Ends;
use std::alloc::{AllocError, Global};
use viz_extent::Extent;
use viz_lanes::Bits;
use viz_mixed::{corner_words, mixed_of};

/// The triangles in all tetrahedra of the extent, in the order of the list of all, by the numbers
/// of their edges.
pub(crate) fn section<T: Ends>(
    alloc: Global,
    whole: &Extent,
    inside: &Bits,
) -> Result<Vec<T>, AllocError>
    requires full { length inside.now ≡ count_of whole.now }
    requires fits { 8 * length inside.now ≤ T.limit }
    ensures cells { IfOk result (λ v.
        cells_by (size_x whole.now) (plane_size whole.now) (map T.list v.items)
        ≡ grid_cells whole.now inside.now) }
{
    let [x0, x1, y0, y1, z0, z1] = whole.bounds();
    let across_x = (x1 - x0) as usize;
    let across_y = (y1 - y0) as usize;
    let plane = (across_x + 1) * (across_y + 1);
    let mut out = Vec::new(alloc);
    for k in 0..(z1 - z0) as usize {
        push_layer(&mut out, inside, k * plane, across_x, across_y)?;
    }
    Ok(out)
}

/// Adds the triangles in the layer of cubes from a leaf on, with so many cubes along x and y.
fn push_layer<T: Ends>(
    out: &mut Vec<T>,
    inside: &Bits,
    first: usize,
    across_x: usize,
    across_y: usize,
) -> Result<(), AllocError>
    requires within { first + 2 * ((across_x + 1) * (across_y + 1)) ≤ length inside.now }
    requires fits { 8 * length inside.now ≤ T.limit }
    requires narrow { length inside.now < 2 ^ 31 }
    ensures { OnOk result (
        cells_by (across_x + 1) ((across_x + 1) * (across_y + 1)) (map T.list out.new.items)
        ≡ cells_by (across_x + 1) ((across_x + 1) * (across_y + 1)) (map T.list out.old.items)
        ++ cells_in_layer inside.now (across_x + 1) ((across_x + 1) * (across_y + 1))
        across_x across_y first) }
{
    let row = across_x + 1;
    let plane = row * (across_y + 1);
    for j in 0..across_y {
        push_row(out, inside, first + j * row, across_x, plane)?;
    }
    Ok(())
}

/// Adds the triangles in the row of cubes from a leaf on, with so many cubes, where a plane of
/// points is so long.
fn push_row<T: Ends>(
    out: &mut Vec<T>,
    inside: &Bits,
    first: usize,
    across_x: usize,
    plane: usize,
) -> Result<(), AllocError>
    requires within { first + 2 * (across_x + 1) + plane ≤ length inside.now }
    requires fits { 8 * length inside.now ≤ T.limit }
    requires narrow { length inside.now < 2 ^ 31 }
    ensures { OnOk result (cells_by (across_x + 1) plane (map T.list out.new.items)
        ≡ cells_by (across_x + 1) plane (map T.list out.old.items)
        ++ cells_in_row inside.now (across_x + 1) plane across_x first) }
{
    let row = across_x + 1;
    let mut at = 0;
    while at < across_x {
        let count = (across_x - at).min(64);
        push_some(out, inside, first + at, count, row, plane)?;
        at += count;
    }
    Ok(())
}

/// Adds the triangles in up to 64 cubes along x from a leaf on: those of mixed cubes, as no other
/// has one.
fn push_some<T: Ends>(
    out: &mut Vec<T>,
    inside: &Bits,
    first: usize,
    count: usize,
    row: usize,
    plane: usize,
) -> Result<(), AllocError>
    requires some { 0 < count }
    requires most { count ≤ 64 }
    requires within { first + count + row + plane < length inside.now }
    requires fits { 8 * length inside.now ≤ T.limit }
    requires narrow { length inside.now < 2 ^ 31 }
    ensures { OnOk result (cells_by row plane (map T.list out.new.items)
        ≡ cells_by row plane (map T.list out.old.items)
        ++ cells_in_row inside.now row plane count first) }
{
    let words = corner_words(inside, first, row, plane);
    let mixed = mixed_of(&words);
    if mixed == 0 {
        return Ok(());
    }
    for t in 0..count {
        push_cube(out, &words, mixed, t as u32, first + t, row, plane)?;
    }
    Ok(())
}
