//! The cells of a section.

ghost use Rattle.std.specs.Prelude.{◌≡◌, ◌<◌, ◌≤◌, ◌^◌, [], length, true};
ghost use Rattle.viz_lex.specs.Reading.{rest_of, advanced};
ghost use Rattle.viz_attr.specs.Reads.{ReadsUnlessMemory};
ghost use Rattle.viz_counted_cells.specs.Geometry.{MeetsBy};
ghost use Rattle.viz_counted_cells.specs.Steps.{indices_at, cell_at, cells_at, section_at};
ghost use Rattle.viz_counted_cells.specs.Sections.{section_of, section_numbers};

use crate::blocks::next_cells;
use crate::cell_numbers::{CellArrays, CellNumbers};
use crate::counts::{count, section_size};
use crate::numbers::{index, is_cell_count, section_number, section_start};
use std::alloc::Global;
use viz_attr::AttrStop;
use viz_lex::{FileFault, FileKind, Lexer};

/// A section of cells as it stands in a file: the count of a cell, then its indices, and then the
/// next cell.
#[derive(Debug, Drop)]
pub struct CellSection {
    /// How many cells there are.
    pub count: u64,
    /// The numbers of the cells, one cell after the other.
    pub numbers: CellNumbers,
}

/// So many indices, behind the numbers before.
fn indices(
    lexer: &mut Lexer<'_>,
    numbers: &mut Vec<u32>,
    binary: bool,
    points: u64,
    count: u64,
) -> Result<(), AttrStop>
    requires { points < 2 ^ 31 }
    ensures { ReadsUnlessMemory (λ done. numbers.new.items) result lexer.new
        (indices_at binary points count numbers.old.items lexer.old) }
{
    for _ in 0..count {
        numbers.push(index(lexer, binary, points)?)?;
    }
    Ok(())
}

/// A cell, behind the numbers before, with so many cells and numbers left.
#[tactic(auto, unfolding(crate::specs::Steps::cell_at))]
fn cell(
    lexer: &mut Lexer<'_>,
    numbers: &mut Vec<u32>,
    binary: bool,
    points: u64,
    cells: u64,
    left: u64,
) -> Result<(), AttrStop>
    requires few { points < 2 ^ 31 }
    requires within { left < 2 ^ 31 }
    ensures { ReadsUnlessMemory (λ done. numbers.new.items) result lexer.new
        (cell_at binary points cells left numbers.old.items lexer.old) }
{
    let (place, c) = section_number(lexer, binary)?;
    if !is_cell_count(cells, left, &c) {
        return Err(AttrStop::File(FileFault {
            kind: FileKind::Count,
            place,
        }));
    }
    numbers.push(c as u32)?;
    indices(lexer, numbers, binary, points, c as u64)
}

/// So many cells, behind the numbers before, of which all are to be so many.
fn cells(
    lexer: &mut Lexer<'_>,
    numbers: &mut Vec<u32>,
    binary: bool,
    points: u64,
    count: u64,
    size: u64,
) -> Result<(), AttrStop>
    requires few { points < 2 ^ 31 }
    requires within { size < 2 ^ 31 }
    ensures { ReadsUnlessMemory (λ done. numbers.new.items) result lexer.new
        (cells_at binary points size count numbers.old.items lexer.old) }
{
    for i in 0..count {
        let left = size.saturating_sub(numbers.len() as u64);
        cell(lexer, numbers, binary, points, count - i, left)?;
    }
    Ok(())
}

/// The numbers of so many cells, one by one: of all they are to be so many.
fn mixed_cells(
    alloc: Global,
    lexer: &mut Lexer<'_>,
    binary: bool,
    points: u64,
    count: u64,
    size: u64,
) -> Result<CellNumbers, AttrStop>
    requires few { points < 2 ^ 31 }
    requires within { size < 2 ^ 31 }
    ensures { ReadsUnlessMemory (λ n. n.items) result lexer.new
        (cells_at binary points size count [] lexer.old) }
{
    let left = lexer.bytes().len() as u64 - lexer.place();
    let room = size.min(left / 2 + 1);
    let mut numbers = Vec::with_capacity(alloc, room as usize)?;
    cells(lexer, &mut numbers, binary, points, count, size)?;
    Ok(CellNumbers::of(CellArrays::Mixed(numbers)))
}

/// Passes over so many bytes, which are left.
#[tactic(auto, unfolding(viz_lex::specs::Blocks::block_at))]
fn pass(lexer: &mut Lexer<'_>, count: u64)
    requires { count ≤ length (rest_of lexer.old) }
    ensures { lexer.new ≡ advanced lexer.old count }
{
    match lexer.block(count) {
        Ok(_) => {}
        Err(_) => unreachable!(),
    }
}

/// The numbers of so many cells in BINARY.
fn block_cells(
    alloc: Global,
    lexer: &mut Lexer<'_>,
    points: u64,
    count: u64,
    size: u64,
) -> Result<CellNumbers, AttrStop>
    requires few { points < 2 ^ 31 }
    requires within { size < 2 ^ 31 }
    requires cells { count < 2 ^ 31 }
    ensures { ReadsUnlessMemory (λ n. n.items) result lexer.new
        (cells_at true points size count [] lexer.old) }
{
    if let Some(numbers) = next_cells(alloc, lexer, points, count, size)? {
        pass(lexer, 4 * size);
        return Ok(numbers);
    }
    mixed_cells(alloc, lexer, true, points, count, size)
}

/// The numbers of so many cells.
fn cell_numbers(
    alloc: Global,
    lexer: &mut Lexer<'_>,
    binary: bool,
    points: u64,
    count: u64,
    size: u64,
) -> Result<CellNumbers, AttrStop>
    requires few { points < 2 ^ 31 }
    requires within { size < 2 ^ 31 }
    requires cells { count < 2 ^ 31 }
    ensures { ReadsUnlessMemory (λ n. n.items) result lexer.new
        (cells_at binary points size count [] lexer.old) }
{
    if binary {
        return block_cells(alloc, lexer, points, count, size);
    }
    mixed_cells(alloc, lexer, binary, points, count, size)
}

/// A section behind its keyword, in a file of so many points: n size, and n cells.
#[tactic(auto, unfolding(crate::specs::Steps::section_at))]
fn all_cells(
    alloc: Global,
    lexer: &mut Lexer<'_>,
    binary: bool,
    points: u64,
) -> Result<CellSection, AttrStop>
    requires { points < 2 ^ 31 }
    ensures { ReadsUnlessMemory section_of result lexer.new (section_at binary points lexer.old) }
{
    let count = count(lexer)?;
    let size = section_size(lexer, count)?;
    section_start(lexer, binary)?;
    let numbers = cell_numbers(alloc, lexer, binary, points, count, size)?;
    Ok(CellSection { count, numbers })
}

/// A section of cells in a file of so many points: called behind its keyword, CELLS or one of the
/// four of polydata.
pub fn section(
    alloc: Global,
    lexer: &mut Lexer<'_>,
    binary: bool,
    points: u64,
) -> Result<CellSection, AttrStop>
    requires { points < 2 ^ 31 }
    ensures meets { MeetsBy section_of (section_numbers binary points) result lexer.old lexer.new }
    ensures exact { ReadsUnlessMemory section_of result lexer.new (section_at binary points lexer.old) }
{
    all_cells(alloc, lexer, binary, points)
}
