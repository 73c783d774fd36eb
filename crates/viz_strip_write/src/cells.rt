//! The rows of cells, and how many there are of a size.

ghost use Rattle.std.specs.Prelude.{◌≡◌, ◌+◌, ◌<◌, ◌≤◌, ◌^◌, ◌++◌, [], ◌∷◌, OnOk, IfOk};
ghost use Rattle.std.specs.Prelude.{IfSome, IfNone, length};
ghost use Rattle.std.specs.List.{flat_map};
ghost use Rattle.viz_mesh_write.specs.Cells.{of_size};
ghost use Rattle.viz_mesh_write.specs.MeshText.{size_of};
ghost use Rattle.viz_sheet.specs.Arrays.{ranks_in};
ghost use Rattle.viz_strip_write.specs.Steps.Rows.{row_of, rows_of, spaced};

use crate::heads::put_count;
use std::alloc::{AllocError, Global};
use viz_sheet::Ranks;
use viz_strip::Rows;

/// The indices of a cell, each behind a space.
fn put_indices(text: &mut Vec<u8>, cell: &[u32]) -> Result<(), AllocError>
    ensures { OnOk result (text.new.items ≡ text.old.items ++ flat_map spaced cell.now) }
{
    for index in cell {
        put_index(text, *index)?;
    }
    Ok(())
}

/// An index behind a space.
fn put_index(text: &mut Vec<u8>, index: u32) -> Result<(), AllocError>
    ensures { OnOk result (text.new.items ≡ text.old.items ++ spaced index) }
{
    text.push(b' ')?;
    put_count(text, u64::from(index))?;
    Ok(())
}

/// The line of a cell.
fn put_row(text: &mut Vec<u8>, cell: &[u32]) -> Result<(), AllocError>
    ensures { OnOk result (text.new.items ≡ text.old.items ++ row_of cell.now) }
{
    put_count(text, cell.len() as u64)?;
    put_indices(text, cell)?;
    text.push(b'\n')?;
    Ok(())
}

/// The lines of all rows.
pub(crate) fn put_rows(text: &mut Vec<u8>, rows: &Rows) -> Result<(), AllocError>
    ensures { OnOk result (text.new.items ≡ text.old.items ++ rows_of rows.now) }
{
    for index in 0..rows.len() {
        put_row(text, rows.get(index))?;
    }
    Ok(())
}

/// The cells of so many points.
pub(crate) fn put_of_size(text: &mut Vec<u8>, size: usize, ranks: &Ranks) -> Result<(), AllocError>
    ensures { OnOk result (text.new.items
        ≡ text.old.items ++ rows_of (of_size size (ranks_in ranks.now))) }
{
    for index in 0..ranks.len() {
        put_sized(text, size, ranks.get(index))?;
    }
    Ok(())
}

/// The line of a cell, where it has so many points.
fn put_sized(text: &mut Vec<u8>, size: usize, cell: &[u32]) -> Result<(), AllocError>
    ensures { OnOk result (text.new.items
        ≡ text.old.items ++ rows_of (of_size size (cell.now ∷ []))) }
{
    if cell.len() == size {
        put_row(text, cell)?;
    }
    Ok(())
}

/// How many cells have so many points.
pub(crate) fn count_of_size(ranks: &Ranks, size: usize) -> u64
    ensures { result ≡ length (of_size size (ranks_in ranks.now)) }
{
    let mut count = 0;
    for index in 0..ranks.len() {
        if ranks.get(index).len() == size {
            count += 1;
        }
    }
    count
}

/// How many numbers rows have with their counts, where these are fewer than 2^31.
pub(crate) fn size_of_rows(rows: &Rows) -> Option<u64>
    ensures some { IfSome result (λ n. n ≡ size_of rows.now) }
    ensures few { IfSome result (λ n. n < 2 ^ 31) }
    ensures none { IfNone result (2 ^ 31 ≤ size_of rows.now) }
{
    let mut size: u64 = 0;
    for index in 0..rows.len() {
        size += rows.get(index).len() as u64 + 1;
        if size >= 1 << 31 {
            return None;
        }
    }
    Some(size)
}

/// The cells of three points.
pub(crate) fn triangles_of(alloc: Global, ranks: &Ranks) -> Result<Vec<[u32; 3]>, AllocError>
    ensures { IfOk result (λ v. v.items ≡ of_size 3 (ranks_in ranks.now)) }
{
    let mut triangles = Vec::with_capacity(alloc, ranks.len())?;
    for index in 0..ranks.len() {
        if let [a, b, c] = ranks.get(index) {
            triangles.push([*a, *b, *c])?;
        }
    }
    Ok(triangles)
}
