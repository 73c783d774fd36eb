//! Cells of one size in BINARY, straight from the bytes of their indices.

ghost use Rattle.std.specs.Prelude.{◌≡◌, ◌<◌, ◌≤◌, ◌^◌, ◌*◌, ℕ, suc, List, length};
ghost use Rattle.std.specs.Prelude.{IfSome, IfOk};
ghost use Rattle.byteorder.specs.Endian.{big_number};
ghost use Rattle.viz_column.specs.Kinds.{size_of};
ghost use Rattle.viz_offset_cells.specs.Blocks.{IsCellIn, AreCellsIn, AreRunsNext, cuts_of};
ghost use Rattle.viz_offset_cells.specs.Blocks.{steps_from};
ghost use Rattle.viz_offset_cells.specs.Steps.{AreAllCuts};

use crate::blocks::{behind, rest};
use crate::cuts::Cuts;
use crate::wide_runs::next_runs;
use byteorder::{BigEndian, ByteOrder};
use std::alloc::{AllocError, Global};
use viz_column::Kind8;
use viz_counted_cells::{CellArrays, CellNumbers};
use viz_lex::Lexer;

/// A cell of a size that its type tells, whose indices have 64 bits each.
trait WideCell: Copy + Drop {
    ghost list: { Self → List ℕ };

    // How many indices a cell has.
    ghost size: { ℕ };

    /// How many bytes the indices of a cell have.
    fn width() -> usize
        ensures { result ≡ 8 * size };

    /// The cell in front of these bytes, where its indices are those of points.
    fn front(bytes: &[u8], points: u64) -> Option<Self>
        requires { points < 2 ^ 31 }
        ensures { IfSome result (λ c. IsCellIn points size (list c) bytes.now) };
}

/// The index in front of the bytes, where it is that of one of so many points.
#[inline(always)]
pub(crate) fn index_in(bytes: &[u8], points: u64) -> Option<u32>
    requires room { 8 ≤ length bytes.now }
    requires few { points < 2 ^ 31 }
    ensures value { IfSome result (λ i. big_number 8 bytes.now ≡ i) }
    ensures below { IfSome result (λ i. i < points) }
{
    let index = BigEndian::read_u64(bytes);
    if index >= points {
        return None;
    }
    Some(index as u32)
}

impl WideCell for [u32; 3] {
    ghost list = { λ c. c };

    ghost size = { 3 };

    fn width() -> usize {
        24
    }

    #[inline(always)]
    fn front(bytes: &[u8], points: u64) -> Option<[u32; 3]> {
        if bytes.len() < 24 {
            return None;
        }
        let second = behind(bytes, 8);
        let third = behind(second, 8);
        let a = index_in(bytes, points)?;
        let b = index_in(second, points)?;
        let c = index_in(third, points)?;
        Some([a, b, c])
    }
}

impl WideCell for [u32; 4] {
    ghost list = { λ c. c };

    ghost size = { 4 };

    fn width() -> usize {
        32
    }

    #[inline(always)]
    fn front(bytes: &[u8], points: u64) -> Option<[u32; 4]> {
        if bytes.len() < 32 {
            return None;
        }
        let second = behind(bytes, 8);
        let third = behind(second, 8);
        let fourth = behind(third, 8);
        let a = index_in(bytes, points)?;
        let b = index_in(second, points)?;
        let c = index_in(third, points)?;
        let d = index_in(fourth, points)?;
        Some([a, b, c, d])
    }
}

/// So many cells of this size, where they stand in front of the bytes.
// It isn't inlined, so that its loop keeps its values in registers: a fifth faster.
#[inline(never)]
fn cells_in<C: WideCell>(
    alloc: Global,
    bytes: &[u8],
    points: u64,
    count: u64,
) -> Result<Option<Vec<C>>, AllocError>
    requires { points < 2 ^ 31 }
    ensures cells { IfOk result (λ found. IfSome found (λ v.
        AreCellsIn C.list points C.size v.items bytes.now)) }
    ensures count { IfOk result (λ found. IfSome found (λ v. length v.items ≡ count)) }
{
    let mut left = bytes;
    let room = count.min(left.len() as u64 / 24);
    let mut cells = Vec::with_capacity(alloc, room as usize)?;
    for _ in 0..count {
        let Some(cell) = C::front(left, points) else {
            return Ok(None);
        };
        cells.push(cell)?;
        left = behind(left, C::width());
    }
    Ok(Some(cells))
}

fn next_triangles(
    alloc: Global,
    lexer: &Lexer<'_>,
    kind: Kind8,
    points: u64,
    count: u64,
    indices: u64,
) -> Result<Option<CellNumbers>, AllocError>
    requires few { points < 2 ^ 31 }
    requires wide { size_of kind ≡ 8 }
    requires all { indices ≡ 3 * count }
    ensures { IfOk result (λ found. IfSome found (λ n.
        AreRunsNext kind points (steps_from 0 3 (suc count)) indices n.items lexer.now)) }
{
    let found = cells_in::<[u32; 3]>(alloc, rest(lexer), points, count)?;
    let Some(cells) = found else {
        return Ok(None);
    };
    Ok(Some(CellNumbers::of(CellArrays::Triangles(cells))))
}

fn next_tetrahedra(
    alloc: Global,
    lexer: &Lexer<'_>,
    kind: Kind8,
    points: u64,
    count: u64,
    indices: u64,
) -> Result<Option<CellNumbers>, AllocError>
    requires few { points < 2 ^ 31 }
    requires wide { size_of kind ≡ 8 }
    requires all { indices ≡ 4 * count }
    ensures { IfOk result (λ found. IfSome found (λ n.
        AreRunsNext kind points (steps_from 0 4 (suc count)) indices n.items lexer.now)) }
{
    let found = cells_in::<[u32; 4]>(alloc, rest(lexer), points, count)?;
    let Some(cells) = found else {
        return Ok(None);
    };
    Ok(Some(CellNumbers::of(CellArrays::Tetrahedra(cells))))
}

/// The numbers of so many cells of so many indices each.
fn next_steps(
    alloc: Global,
    lexer: &Lexer<'_>,
    kind: Kind8,
    points: u64,
    step: u64,
    count: u64,
    indices: u64,
) -> Result<Option<CellNumbers>, AllocError>
    requires few { points < 2 ^ 31 }
    requires wide { size_of kind ≡ 8 }
    requires all { indices ≡ step * count }
    ensures { IfOk result (λ found. IfSome found (λ n.
        AreRunsNext kind points (steps_from 0 step (suc count)) indices n.items lexer.now)) }
{
    match step {
        3 => next_triangles(alloc, lexer, kind, points, count, indices),
        4 => next_tetrahedra(alloc, lexer, kind, points, count, indices),
        _ => Ok(None),
    }
}

/// The numbers of the cells between offsets, where their indices are next in 64 bits each, and all
/// have three or four of them or they have several sizes.
pub(crate) fn next_cells(
    alloc: Global,
    lexer: &Lexer<'_>,
    kind: Kind8,
    points: u64,
    cuts: &Cuts,
    indices: u64,
) -> Result<Option<CellNumbers>, AllocError>
    requires few { points < 2 ^ 31 }
    requires within { indices < 2 ^ 31 }
    requires cuts { AreAllCuts (cuts_of cuts.now) indices }
    ensures { IfOk result (λ found. IfSome found (λ n.
        AreRunsNext kind points (cuts_of cuts.now) indices n.items lexer.now)) }
{
    if kind.size() != 8 {
        return Ok(None);
    }
    match cuts {
        Cuts::Steps(step, count) => {
            next_steps(alloc, lexer, kind, points, *step, *count, indices)
        }
        Cuts::Listed(offsets) => next_runs(alloc, lexer, kind, points, offsets, indices),
    }
}
