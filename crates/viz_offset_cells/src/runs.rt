//! The cells of a section, which are the runs of its indices between neighbouring offsets.

ghost use Rattle.std.specs.Prelude.{◌≡◌, ◌<◌, ◌≤◌, ◌^◌, ◌*◌, ◌+◌, ◌++◌, ◌∷◌, [], true};
ghost use Rattle.viz_attr.specs.Reads.{ReadsUnlessMemory};
ghost use Rattle.viz_offset_cells.specs.Steps.{run_at, runs_at, all_runs_at, connectivity_at};
ghost use Rattle.viz_offset_cells.specs.Steps.{AreCuts, AreAllCuts};
ghost use Rattle.viz_offset_cells.specs.Blocks.{cuts_of, steps_from};

use crate::blocks::pass;
use crate::cuts::Cuts;
use crate::kinds::index_type;
use crate::numbers::index;
use crate::wide_cells::next_cells;
use std::alloc::Global;
use viz_attr::AttrStop;
use viz_column::Kind8;
use viz_counted_cells::{CellArrays, CellNumbers, section_start};
use viz_lex::Lexer;

/// So many indices, behind the numbers before.
fn run(
    lexer: &mut Lexer<'_>,
    numbers: &mut Vec<u32>,
    binary: bool,
    kind: Kind8,
    points: u64,
    count: u64,
) -> Result<(), AttrStop>
    requires { points < 2 ^ 31 }
    ensures { ReadsUnlessMemory (λ done. numbers.new.items) result lexer.new
        (run_at binary kind points count numbers.old.items lexer.old) }
{
    for _ in 0..count {
        numbers.push(index(lexer, binary, kind, points)?)?;
    }
    Ok(())
}

/// A cell, behind the numbers before: its count, and so many indices.
fn cell(
    lexer: &mut Lexer<'_>,
    numbers: &mut Vec<u32>,
    binary: bool,
    kind: Kind8,
    points: u64,
    count: u64,
) -> Result<(), AttrStop>
    requires few { points < 2 ^ 31 }
    requires within { count < 2 ^ 31 }
    ensures { ReadsUnlessMemory (λ done. numbers.new.items) result lexer.new
        (run_at binary kind points count (numbers.old.items ++ count ∷ []) lexer.old) }
{
    numbers.push(count as u32)?;
    run(lexer, numbers, binary, kind, points, count)
}

/// The cells from an offset on, behind the numbers before.
fn cells(
    lexer: &mut Lexer<'_>,
    numbers: &mut Vec<u32>,
    binary: bool,
    kind: Kind8,
    points: u64,
    first: u64,
    offsets: &[u64],
    indices: u64,
) -> Result<(), AttrStop>
    requires few { points < 2 ^ 31 }
    requires within { indices < 2 ^ 31 }
    requires cuts { AreCuts first offsets.now indices }
    ensures { ReadsUnlessMemory (λ done. numbers.new.items) result lexer.new
        (runs_at binary kind points first offsets.now numbers.old.items lexer.old) }
{
    let mut last = first;
    for next in offsets {
        cell(lexer, numbers, binary, kind, points, *next - last)?;
        last = *next;
    }
    Ok(())
}

/// So many cells of so many indices each, behind the numbers before.
fn equal_cells(
    lexer: &mut Lexer<'_>,
    numbers: &mut Vec<u32>,
    binary: bool,
    kind: Kind8,
    points: u64,
    step: u64,
    count: u64,
) -> Result<(), AttrStop>
    requires few { points < 2 ^ 31 }
    requires within { step * count < 2 ^ 31 }
    ensures { ReadsUnlessMemory (λ done. numbers.new.items) result lexer.new
        (runs_at binary kind points 0 (steps_from (0 + step) step count) numbers.old.items
        lexer.old) }
{
    for _ in 0..count {
        cell(lexer, numbers, binary, kind, points, step)?;
    }
    Ok(())
}

/// The cells between offsets that are listed, behind no number.
fn listed_cells(
    lexer: &mut Lexer<'_>,
    numbers: &mut Vec<u32>,
    binary: bool,
    kind: Kind8,
    points: u64,
    offsets: &[u64],
    indices: u64,
) -> Result<(), AttrStop>
    requires few { points < 2 ^ 31 }
    requires within { indices < 2 ^ 31 }
    requires cuts { AreAllCuts offsets.now indices }
    requires first { numbers.old.items ≡ [] }
    ensures { ReadsUnlessMemory (λ done. numbers.new.items) result lexer.new
        (all_runs_at binary kind points offsets.now lexer.old) }
{
    if let [first, later @ ..] = offsets {
        cells(lexer, numbers, binary, kind, points, *first, later, indices)?;
    }
    Ok(())
}

/// The cells between offsets, behind no number.
fn cut_cells(
    lexer: &mut Lexer<'_>,
    numbers: &mut Vec<u32>,
    binary: bool,
    kind: Kind8,
    points: u64,
    cuts: &Cuts,
    indices: u64,
) -> Result<(), AttrStop>
    requires few { points < 2 ^ 31 }
    requires within { indices < 2 ^ 31 }
    requires cuts { AreAllCuts (cuts_of cuts.now) indices }
    requires first { numbers.old.items ≡ [] }
    ensures { ReadsUnlessMemory (λ done. numbers.new.items) result lexer.new
        (all_runs_at binary kind points (cuts_of cuts.now) lexer.old) }
{
    match cuts {
        Cuts::Steps(step, count) => {
            equal_cells(lexer, numbers, binary, kind, points, *step, *count)
        }
        Cuts::Listed(offsets) => {
            listed_cells(lexer, numbers, binary, kind, points, offsets, indices)
        }
    }
}

/// The numbers of the cells between offsets, one by one.
fn mixed_cells(
    alloc: Global,
    lexer: &mut Lexer<'_>,
    binary: bool,
    kind: Kind8,
    points: u64,
    cuts: &Cuts,
    indices: u64,
) -> Result<CellNumbers, AttrStop>
    requires few { points < 2 ^ 31 }
    requires within { indices < 2 ^ 31 }
    requires cuts { AreAllCuts (cuts_of cuts.now) indices }
    ensures { ReadsUnlessMemory (λ n. n.items) result lexer.new
        (all_runs_at binary kind points (cuts_of cuts.now) lexer.old) }
{
    let left = lexer.bytes().len() as u64 - lexer.place();
    let room = cuts.cells().saturating_add(indices.min(left));
    let mut numbers = Vec::with_capacity(alloc, room as usize)?;
    cut_cells(lexer, &mut numbers, binary, kind, points, cuts, indices)?;
    Ok(CellNumbers::of(CellArrays::Mixed(numbers)))
}

/// The numbers of the cells between offsets in BINARY.
fn block_cells(
    alloc: Global,
    lexer: &mut Lexer<'_>,
    kind: Kind8,
    points: u64,
    cuts: &Cuts,
    indices: u64,
) -> Result<CellNumbers, AttrStop>
    requires few { points < 2 ^ 31 }
    requires within { indices < 2 ^ 31 }
    requires cuts { AreAllCuts (cuts_of cuts.now) indices }
    ensures { ReadsUnlessMemory (λ n. n.items) result lexer.new
        (all_runs_at true kind points (cuts_of cuts.now) lexer.old) }
{
    if let Some(numbers) = next_cells(alloc, lexer, kind, points, cuts, indices)? {
        pass(lexer, 8 * indices);
        return Ok(numbers);
    }
    mixed_cells(alloc, lexer, true, kind, points, cuts, indices)
}

/// The numbers of the cells between offsets, whose last is how many indices there are.
fn all_cells(
    alloc: Global,
    lexer: &mut Lexer<'_>,
    binary: bool,
    kind: Kind8,
    points: u64,
    cuts: &Cuts,
    indices: u64,
) -> Result<CellNumbers, AttrStop>
    requires few { points < 2 ^ 31 }
    requires within { indices < 2 ^ 31 }
    requires cuts { AreAllCuts (cuts_of cuts.now) indices }
    ensures { ReadsUnlessMemory (λ n. n.items) result lexer.new
        (all_runs_at binary kind points (cuts_of cuts.now) lexer.old) }
{
    if binary {
        return block_cells(alloc, lexer, kind, points, cuts, indices);
    }
    mixed_cells(alloc, lexer, binary, kind, points, cuts, indices)
}

/// CONNECTIVITY type, and so many indices, as the numbers of the cells between offsets.
#[tactic(auto, unfolding(crate::specs::Steps::connectivity_at))]
pub(crate) fn connectivity(
    alloc: Global,
    lexer: &mut Lexer<'_>,
    binary: bool,
    points: u64,
    cuts: &Cuts,
    indices: u64,
) -> Result<CellNumbers, AttrStop>
    requires few { points < 2 ^ 31 }
    requires within { indices < 2 ^ 31 }
    requires cuts { AreAllCuts (cuts_of cuts.now) indices }
    ensures { ReadsUnlessMemory (λ n. n.items) result lexer.new
        (connectivity_at binary points (cuts_of cuts.now) lexer.old) }
{
    lexer.due_keyword(b"CONNECTIVITY")?;
    let kind = index_type(lexer)?;
    section_start(lexer, binary)?;
    all_cells(alloc, lexer, binary, kind, points, cuts, indices)
}
