//! The types of the cells of a grid.

ghost use Rattle.std.specs.Prelude.{◌≡◌, None, Some, drop};
ghost use Rattle.std.specs.List.{flat_map};
ghost use Rattle.viz_counted_cells.specs.Numbered.{cell_numbers, first_count};
ghost use Rattle.viz_lex.specs.Reading.{Reads};
ghost use Rattle.viz_attr.specs.Counts.{is_number};
ghost use Rattle.viz_attr.specs.Steps.{same_count_at};
ghost use Rattle.viz_counted_cells.specs.Sections.{section_of};
ghost use Rattle.viz_mesh_read.specs.Grid.{points_of_type};
ghost use Rattle.viz_mesh_read.specs.GridSteps.{cell_type_at, cell_types_at, types_at};

use viz_counted_cells::{
    CellArrays, CellSection, FixedCell, behind_first, first_count, section_number, section_start,
};
use viz_lex::{FileFault, FileKind, Lexer};

fn points_of_type(t: &i128) -> Option<u32>
    ensures { result ≡ points_of_type t.now }
{
    match *t {
        1 => Some(1),
        3 => Some(2),
        5 => Some(3),
        10 => Some(4),
        _ => None,
    }
}

fn is_number(count: u64, n: &i128) -> bool
    ensures { result ≡ is_number count n.now }
{
    *n == i128::from(count)
}

/// The type of a cell of so many points.
#[tactic(auto, unfolding(crate::specs::GridSteps::cell_type_at))]
#[inline(always)]
fn cell_type(lexer: &mut Lexer<'_>, binary: bool, size: u32) -> Result<(), FileFault>
    ensures { Reads (λ done. done) result lexer.new (cell_type_at binary size lexer.old) }
{
    let (place, t) = section_number(lexer, binary)?;
    let Some(points) = points_of_type(&t) else {
        return Err(FileFault {
            kind: FileKind::CellType(t),
            place,
        });
    };
    if points != size {
        return Err(FileFault {
            kind: FileKind::Count,
            place,
        });
    }
    Ok(())
}

/// The types of so many cells, whose numbers are these.
fn cell_types(
    lexer: &mut Lexer<'_>,
    binary: bool,
    count: u64,
    numbers: &[u32],
) -> Result<(), FileFault>
    ensures { Reads (λ done. done) result lexer.new
        (cell_types_at binary count numbers.now lexer.old) }
{
    let mut left = numbers;
    for _ in 0..count {
        cell_type(lexer, binary, first_count(left))?;
        left = behind_first(left);
    }
    Ok(())
}

/// The size of the cell of an index, and 0 where there is none.
#[inline(always)]
fn size_at<C: FixedCell>(cells: &[C], index: u64) -> u32
    ensures { result
        ≡ first_count (flat_map (λ c. cell_numbers (C.list c)) (drop index cells.now)) }
{
    if index >= cells.len() as u64 {
        return 0;
    }
    cells[index as usize].indices().len() as u32
}

/// The types of so many cells, whose numbers are those of these cells.
fn types_of_size<C: FixedCell>(
    lexer: &mut Lexer<'_>,
    binary: bool,
    count: u64,
    cells: &[C],
) -> Result<(), FileFault>
    ensures { Reads (λ done. done) result lexer.new (cell_types_at binary count
        (flat_map (λ c. cell_numbers (C.list c)) cells.now) lexer.old) }
{
    for i in 0..count {
        cell_type(lexer, binary, size_at(cells, i))?;
    }
    Ok(())
}

/// The types of all cells of a section.
fn all_types(lexer: &mut Lexer<'_>, binary: bool, cells: &CellSection) -> Result<(), FileFault>
    ensures { Reads (λ done. done) result lexer.new
        (cell_types_at binary cells.now.count cells.now.numbers.items lexer.old) }
{
    match cells.numbers.arrays() {
        CellArrays::Mixed(numbers) => cell_types(lexer, binary, cells.count, numbers),
        CellArrays::Triangles(of_three) => types_of_size(lexer, binary, cells.count, of_three),
        CellArrays::Tetrahedra(of_four) => types_of_size(lexer, binary, cells.count, of_four),
    }
}

/// This very count again: else Count.
#[tactic(auto, unfolding(viz_attr::specs::Steps::same_count_at))]
fn same_count(lexer: &mut Lexer<'_>, count: u64) -> Result<(), FileFault>
    ensures { Reads (λ done. done) result lexer.new (same_count_at count lexer.old) }
{
    let (place, n) = lexer.due_number()?;
    if !is_number(count, &n) {
        return Err(FileFault {
            kind: FileKind::Count,
            place,
        });
    }
    Ok(())
}

/// CELL_TYPES n, and the type of each of these cells.
#[tactic(auto, unfolding(crate::specs::GridSteps::types_at))]
pub(crate) fn types(
    lexer: &mut Lexer<'_>,
    binary: bool,
    cells: &CellSection,
) -> Result<(), FileFault>
    ensures { Reads (λ done. done) result lexer.new
        (types_at binary (section_of cells.now) lexer.old) }
{
    lexer.due_keyword(b"CELL_TYPES")?;
    same_count(lexer, cells.count)?;
    section_start(lexer, binary)?;
    all_types(lexer, binary, cells)
}
