//! The cells of a section in BINARY, straight from their bytes where all have one size.

ghost use Rattle.std.specs.Prelude.{◌≡◌, ◌<◌, ◌*◌, ◌^◌, suc, IfSome, IfOk};
ghost use Rattle.std.specs.List.{flat_map};
ghost use Rattle.viz_lex.specs.Reading.{rest_of};
ghost use Rattle.viz_counted_cells.specs.Numbered.{cell_numbers};
ghost use Rattle.viz_counted_cells.specs.Blocks.{AreCellsNext};

use crate::cell_numbers::{CellArrays, CellNumbers};
use crate::fixed_cells::{FixedCell, behind};
use std::alloc::{AllocError, Global};
use viz_lex::Lexer;

/// The bytes that are left.
fn rest<'a>(lexer: &Lexer<'a>) -> &'a [u8]
    ensures { result.now ≡ rest_of lexer.now }
{
    &lexer.bytes()[lexer.place() as usize..]
}

/// So many cells of this size, where they are next.
fn cells_of_size<C: FixedCell>(
    alloc: Global,
    lexer: &Lexer<'_>,
    points: u64,
    count: u64,
    size: u64,
) -> Result<Option<Vec<C>>, AllocError>
    requires few { points < 2 ^ 31 }
    requires all { size ≡ suc C.size * count }
    ensures { IfOk result (λ found. IfSome found (λ v.
        AreCellsNext points size count (flat_map (λ c. cell_numbers (C.list c)) v.items)
        lexer.now)) }
{
    let mut left = rest(lexer);
    let room = count.min(left.len() as u64);
    let mut cells = Vec::with_capacity(alloc, room as usize)?;
    for _ in 0..count {
        let Some(cell) = C::front(left, points as u32) else {
            return Ok(None);
        };
        cells.push(cell)?;
        left = behind(left, 4 * (C::size() + 1));
    }
    Ok(Some(cells))
}

/// The numbers of so many cells, where all have one size and are next.
pub(crate) fn next_cells(
    alloc: Global,
    lexer: &Lexer<'_>,
    points: u64,
    count: u64,
    size: u64,
) -> Result<Option<CellNumbers>, AllocError>
    requires few { points < 2 ^ 31 }
    requires within { count < 2 ^ 31 }
    ensures { IfOk result (λ found. IfSome found (λ n.
        AreCellsNext points size count n.items lexer.now)) }
{
    if size == 4 * count {
        return next_triangles(alloc, lexer, points, count, size);
    }
    if size == 5 * count {
        return next_tetrahedra(alloc, lexer, points, count, size);
    }
    Ok(None)
}

fn next_triangles(
    alloc: Global,
    lexer: &Lexer<'_>,
    points: u64,
    count: u64,
    size: u64,
) -> Result<Option<CellNumbers>, AllocError>
    requires few { points < 2 ^ 31 }
    requires all { size ≡ 4 * count }
    ensures { IfOk result (λ found. IfSome found (λ n.
        AreCellsNext points size count n.items lexer.now)) }
{
    let found = cells_of_size::<[u32; 3]>(alloc, lexer, points, count, size)?;
    let Some(cells) = found else {
        return Ok(None);
    };
    Ok(Some(CellNumbers::of(CellArrays::Triangles(cells))))
}

fn next_tetrahedra(
    alloc: Global,
    lexer: &Lexer<'_>,
    points: u64,
    count: u64,
    size: u64,
) -> Result<Option<CellNumbers>, AllocError>
    requires few { points < 2 ^ 31 }
    requires all { size ≡ 5 * count }
    ensures { IfOk result (λ found. IfSome found (λ n.
        AreCellsNext points size count n.items lexer.now)) }
{
    let found = cells_of_size::<[u32; 4]>(alloc, lexer, points, count, size)?;
    let Some(cells) = found else {
        return Ok(None);
    };
    Ok(Some(CellNumbers::of(CellArrays::Tetrahedra(cells))))
}
