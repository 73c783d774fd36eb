//! Cells of several sizes in BINARY, straight from the bytes of their indices.

ghost use Rattle.std.specs.Prelude.{◌≡◌, ◌<◌, ◌≤◌, ◌^◌, ◌*◌, ◌∷◌, [], true, length, IfSome, IfOk};
ghost use Rattle.viz_column.specs.Kinds.{size_of};
ghost use Rattle.viz_offset_cells.specs.Blocks.{IsRunIn, AreRunsIn, AreRunsNext};
ghost use Rattle.viz_offset_cells.specs.Steps.{AreCuts, AreAllCuts};

use crate::blocks::{behind, rest};
use crate::wide_cells::index_in;
use std::alloc::{AllocError, Global};
use viz_column::Kind8;
use viz_counted_cells::{CellArrays, CellNumbers};
use viz_lex::Lexer;

/// Puts so many indices behind the numbers before, where they are those of points.
#[inline(always)]
fn run_in(bytes: &[u8], numbers: &mut Vec<u32>, points: u64, count: u64) -> Result<bool, AllocError>
    requires room { 8 * count ≤ length bytes.now }
    requires few { points < 2 ^ 31 }
    ensures { IfOk result (λ all. all ≡ true
        → IsRunIn points count numbers.old.items numbers.new.items bytes.now) }
{
    let mut left = bytes;
    for _ in 0..count {
        let Some(index) = index_in(left, points) else {
            return Ok(false);
        };
        numbers.push(index)?;
        left = behind(left, 8);
    }
    Ok(true)
}

/// Puts the cells from the first index on behind the numbers before, each up to the next of the
/// offsets, where their indices are those of points.
#[inline(never)]
fn runs_in(
    bytes: &[u8],
    numbers: &mut Vec<u32>,
    points: u64,
    offsets: &[u64],
    indices: u64,
) -> Result<bool, AllocError>
    requires room { 8 * indices ≤ length bytes.now }
    requires few { points < 2 ^ 31 }
    requires within { indices < 2 ^ 31 }
    requires cuts { AreCuts 0 offsets.now indices }
    ensures { IfOk result (λ all. all ≡ true → AreRunsIn points offsets.now indices
        numbers.old.items numbers.new.items bytes.now) }
{
    let mut left = bytes;
    let mut last = 0;
    for next in offsets {
        let count = *next - last;
        numbers.push(count as u32)?;
        if !run_in(left, numbers, points, count)? {
            return Ok(false);
        }
        left = behind(left, 8 * count as usize);
        last = *next;
    }
    Ok(true)
}

/// The numbers of the cells between offsets, where they are next in 64 bits each.
pub(crate) fn next_runs(
    alloc: Global,
    lexer: &Lexer<'_>,
    kind: Kind8,
    points: u64,
    offsets: &[u64],
    indices: u64,
) -> Result<Option<CellNumbers>, AllocError>
    requires few { points < 2 ^ 31 }
    requires within { indices < 2 ^ 31 }
    requires wide { size_of kind ≡ 8 }
    requires cuts { AreAllCuts offsets.now indices }
    ensures { IfOk result (λ found. IfSome found (λ n.
        AreRunsNext kind points offsets.now indices n.items lexer.now)) }
{
    let bytes = rest(lexer);
    let [_, later @ ..] = offsets else {
        return Ok(None);
    };
    if (bytes.len() as u64) < 8 * indices {
        return Ok(None);
    }
    let room = (later.len() as u64).saturating_add(indices);
    let mut numbers = Vec::with_capacity(alloc, room as usize)?;
    if !runs_in(bytes, &mut numbers, points, later, indices)? {
        return Ok(None);
    }
    Ok(Some(CellNumbers::of(CellArrays::Mixed(numbers))))
}
