//! The row of a cell and that of its type, in front of what stands at the end of a block.

ghost use Rattle.std.specs.Prelude.{◌≡◌, ◌<◌, ◌≤◌, ◌+◌, ◌^◌, ◌++◌, ◌∷◌, [], ℕ, Bool, List, All};
ghost use Rattle.std.specs.Prelude.{length, drop, true, false, pos};
ghost use Rattle.std.specs.List.{flat_map};
ghost use Rattle.viz_column.specs.declared.kind.Kind8.TheVariants.{I32};
ghost use Rattle.viz_mesh_write.specs.MeshText.{type_of};
ghost use Rattle.viz_mesh_write.specs.Rows.{row_of};
ghost use Rattle.viz_mesh_write.specs.Steps.Passes.{IsMovable, is_kept, cell_row, kept_row};
ghost use Rattle.viz_mesh_write.specs.Steps.Passes.{index_text, index_bytes, long_bytes, type_row};

use viz_image_write::{left_byte, left_count, left_int, left_long};

/// What is written of each cell. A function that is generic in it has no `match` in its loop.
pub(crate) trait CellRow {
    ghost written: { Self → Bool → ℕ → List ℕ → List ℕ };

    /// Puts the row of a cell, with so many points in front of those of its sheet, in front of what
    /// stands from `end` on, and returns where it begins.
    fn put_left(
        &self,
        block: &mut [u8],
        end: usize,
        binary: bool,
        first: u32,
        ranks: &[u32],
    ) -> usize
        requires movable { IsMovable first ranks.now }
        requires room { 128 ≤ end }
        requires within { end ≤ length block.old }
        ensures written { drop result block.new
            ≡ written self.now binary first ranks.now ++ drop end block.old }
        ensures at { result ≤ end }
        ensures most { end ≤ result + 128 };
}

/// The numbers of each cell of so many points, or of every cell, by whether the file is of version
/// 5.1.
#[derive(Clone, Copy)]
pub(crate) struct Numbers {
    pub(crate) size: Option<usize>,
    pub(crate) later: bool,
}

impl CellRow for Numbers {
    ghost written = { λ n binary first cell. kept_row n.size n.later binary first cell };

    #[inline(always)]
    fn put_left(
        &self,
        block: &mut [u8],
        end: usize,
        binary: bool,
        first: u32,
        ranks: &[u32],
    ) -> usize {
        if is_kept(self.size, ranks) {
            left_cell(block, end, self.later, binary, first, ranks)
        } else {
            end
        }
    }
}

/// The type of each cell.
#[derive(Clone, Copy)]
pub(crate) struct Types;

impl CellRow for Types {
    ghost written = { λ _ binary first cell. type_row binary first cell };

    #[inline(always)]
    fn put_left(
        &self,
        block: &mut [u8],
        end: usize,
        binary: bool,
        _first: u32,
        ranks: &[u32],
    ) -> usize {
        left_type(block, end, binary, ranks)
    }
}

/// What is written of cells: the rows of one kind.
#[derive(Clone, Copy)]
pub(crate) enum OfCells {
    Numbers(Numbers),
    Types(Types),
}

/// Whether a cell has so many points, where they are given.
#[inline(always)]
pub(crate) fn is_kept(size: Option<usize>, ranks: &[u32]) -> bool
    ensures { result ≡ is_kept size ranks.now }
{
    match size {
        Some(size) => ranks.len() == size,
        None => true,
    }
}

/// An index behind a space.
#[inline(always)]
fn left_index_word(block: &mut [u8], end: usize, first: u32, rank: u32) -> usize
    requires below { first + rank < 2 ^ 31 }
    requires room { 21 ≤ end }
    requires within { end ≤ length block.old }
    ensures written { drop result block.new ≡ index_text first rank ++ drop end block.old }
    ensures at { result ≤ end }
    ensures most { end ≤ result + 21 }
{
    let at = left_count(block, end, u64::from(first + rank));
    left_byte(block, at, b' ')
}

/// The indices of a cell, each behind a space.
#[inline(always)]
fn left_index_words(block: &mut [u8], end: usize, first: u32, ranks: &[u32]) -> usize
    requires most { length ranks.now ≤ 4 }
    requires below { All (λ r. first + r < 2 ^ 31) ranks.now }
    requires room { 84 ≤ end }
    requires within { end ≤ length block.old }
    ensures written { drop result block.new
        ≡ flat_map (index_text first) ranks.now ++ drop end block.old }
    ensures at { result ≤ end }
    ensures most { end ≤ result + 84 }
{
    let mut at = end;
    let n = ranks.len();
    for k in 0..n {
        at = left_index_word(block, at, first, ranks[n - 1 - k]);
    }
    at
}

/// The bytes of the indices of a cell.
#[inline(always)]
fn left_index_bytes(block: &mut [u8], end: usize, first: u32, ranks: &[u32]) -> usize
    requires most { length ranks.now ≤ 4 }
    requires below { All (λ r. first + r < 2 ^ 31) ranks.now }
    requires room { 16 ≤ end }
    requires within { end ≤ length block.old }
    ensures written { drop result block.new
        ≡ flat_map (index_bytes first) ranks.now ++ drop end block.old }
    ensures at { result ≤ end }
    ensures most { end ≤ result + 16 }
{
    let mut at = end;
    let n = ranks.len();
    for k in 0..n {
        at = left_int(block, at, first + ranks[n - 1 - k]);
    }
    at
}

/// The bytes of the indices of a cell of a file of version 5.1.
#[inline(always)]
fn left_index_longs(block: &mut [u8], end: usize, first: u32, ranks: &[u32]) -> usize
    requires most { length ranks.now ≤ 4 }
    requires below { All (λ r. first + r < 2 ^ 31) ranks.now }
    requires room { 32 ≤ end }
    requires within { end ≤ length block.old }
    ensures written { drop result block.new
        ≡ flat_map (long_bytes first) ranks.now ++ drop end block.old }
    ensures at { result ≤ end }
    ensures most { end ≤ result + 32 }
{
    let mut at = end;
    let n = ranks.len();
    for k in 0..n {
        at = left_long(block, at, &i64::from(first + ranks[n - 1 - k]));
    }
    at
}

/// The line of a cell.
#[inline(always)]
fn left_cell_words(block: &mut [u8], end: usize, first: u32, ranks: &[u32]) -> usize
    requires movable { IsMovable first ranks.now }
    requires room { 128 ≤ end }
    requires within { end ≤ length block.old }
    ensures written { drop result block.new
        ≡ cell_row false false first ranks.now ++ drop end block.old }
    ensures at { result ≤ end }
    ensures most { end ≤ result + 128 }
{
    let newline = left_byte(block, end, b'\n');
    let indices = left_index_words(block, newline, first, ranks);
    left_count(block, indices, ranks.len() as u64)
}

/// The bytes of a cell.
#[inline(always)]
fn left_cell_bytes(block: &mut [u8], end: usize, first: u32, ranks: &[u32]) -> usize
    requires movable { IsMovable first ranks.now }
    requires room { 128 ≤ end }
    requires within { end ≤ length block.old }
    ensures written { drop result block.new
        ≡ cell_row false true first ranks.now ++ drop end block.old }
    ensures at { result ≤ end }
    ensures most { end ≤ result + 128 }
{
    let indices = left_index_bytes(block, end, first, ranks);
    left_int(block, indices, ranks.len() as u32)
}

/// The line of a cell's indices.
#[inline(always)]
fn left_line(block: &mut [u8], end: usize, first: u32, ranks: &[u32]) -> usize
    requires movable { IsMovable first ranks.now }
    requires room { 128 ≤ end }
    requires within { end ≤ length block.old }
    ensures written { drop result block.new
        ≡ cell_row true false first ranks.now ++ drop end block.old }
    ensures at { result ≤ end }
    ensures most { end ≤ result + 128 }
{
    let newline = left_byte(block, end, b'\n');
    let indices = left_index_words(block, newline, first, ranks);
    if ranks.is_empty() {
        indices
    } else {
        indices + 1
    }
}

/// The bytes of a cell's indices.
#[inline(always)]
fn left_longs(block: &mut [u8], end: usize, first: u32, ranks: &[u32]) -> usize
    requires movable { IsMovable first ranks.now }
    requires room { 128 ≤ end }
    requires within { end ≤ length block.old }
    ensures written { drop result block.new
        ≡ cell_row true true first ranks.now ++ drop end block.old }
    ensures at { result ≤ end }
    ensures most { end ≤ result + 128 }
{
    left_index_longs(block, end, first, ranks)
}

/// The row of a cell.
#[inline(always)]
fn left_cell(
    block: &mut [u8],
    end: usize,
    later: bool,
    binary: bool,
    first: u32,
    ranks: &[u32],
) -> usize
    requires movable { IsMovable first ranks.now }
    requires room { 128 ≤ end }
    requires within { end ≤ length block.old }
    ensures written { drop result block.new
        ≡ cell_row later binary first ranks.now ++ drop end block.old }
    ensures at { result ≤ end }
    ensures most { end ≤ result + 128 }
{
    match (later, binary) {
        (false, false) => left_cell_words(block, end, first, ranks),
        (false, true) => left_cell_bytes(block, end, first, ranks),
        (true, false) => left_line(block, end, first, ranks),
        (true, true) => left_longs(block, end, first, ranks),
    }
}

/// VTK's type of a cell of so many points.
fn type_of(size: usize) -> u32
    ensures value { pos result ≡ type_of size }
    ensures small { result < 2 ^ 31 }
{
    match size {
        1 => 1,
        2 => 3,
        3 => 5,
        _ => 10,
    }
}

/// The line of a type.
#[inline(always)]
fn left_type_line(block: &mut [u8], end: usize, number: u32) -> usize
    requires room { 128 ≤ end }
    requires within { end ≤ length block.old }
    ensures written { drop result block.new
        ≡ row_of false I32 (pos number ∷ []) ++ drop end block.old }
    ensures at { result ≤ end }
    ensures most { end ≤ result + 128 }
{
    let newline = left_byte(block, end, b'\n');
    left_count(block, newline, u64::from(number))
}

/// The row of a cell's type.
#[inline(always)]
fn left_type(block: &mut [u8], end: usize, binary: bool, ranks: &[u32]) -> usize
    requires room { 128 ≤ end }
    requires within { end ≤ length block.old }
    ensures written { drop result block.new
        ≡ type_row binary 0 ranks.now ++ drop end block.old }
    ensures at { result ≤ end }
    ensures most { end ≤ result + 128 }
{
    let number = type_of(ranks.len());
    if binary {
        left_int(block, end, number)
    } else {
        left_type_line(block, end, number)
    }
}
