//! Cells of one size, as they stand in a block.

ghost use Rattle.std.specs.Prelude.{◌≡◌, ◌<◌, ◌≤◌, ◌^◌, ◌*◌, ℕ, suc, List, drop, length, true};
ghost use Rattle.std.specs.Prelude.{IfSome, IfOk};
ghost use Rattle.std.specs.List.{flat_map};
ghost use Rattle.viz_counted_cells.specs.Numbered.{cell_numbers};
ghost use Rattle.viz_counted_cells.specs.Blocks.{StartsWith, IsIndexIn, IsCellIn};

use byteorder::{BigEndian, ByteOrder};
use std::alloc::{AllocError, Global};

/// A cell of a size that its type tells.
pub trait FixedCell: Copy + Drop {
    ghost list: { Self → List ℕ };

    // How many indices a cell has.
    ghost size: { ℕ };

    /// How many indices a cell has.
    fn size() -> usize
        ensures value { result ≡ size }
        ensures most { result ≤ 4 };

    /// The indices.
    fn indices(&self) -> &[u32]
        ensures value { result.now ≡ list self.now }
        ensures long { length (list self.now) ≡ size }
        ensures most { length result.now ≤ 4 };

    /// The cell in front of these bytes, where it has this size and indices of so many points.
    fn front(bytes: &[u8], points: u32) -> Option<Self>
        ensures cell { IfSome result (λ c. IsCellIn points (list c) bytes.now) }
        ensures long { IfSome result (λ c. length (list c) ≡ size) }
        ensures room { IfSome result (λ c. 4 * suc size ≤ length bytes.now) };
}

/// The bytes behind so many.
#[inline(always)]
pub(crate) fn behind(bytes: &[u8], width: usize) -> &[u8]
    requires { width ≤ length bytes.now }
    ensures { result.now ≡ drop width bytes.now }
{
    &bytes[width..]
}

/// Whether this count stands in front of the bytes.
#[inline(always)]
fn starts_with(bytes: &[u8], count: u32) -> bool
    requires room { 4 ≤ length bytes.now }
    requires few { count < 2 ^ 31 }
    ensures { result ≡ true → StartsWith count bytes.now }
{
    BigEndian::read_u32(bytes) == count
}

/// The index in front of the bytes, where it is that of one of so many points.
#[inline(always)]
fn index_in(bytes: &[u8], points: u32) -> Option<u32>
    requires { 4 ≤ length bytes.now }
    ensures { IfSome result (λ i. IsIndexIn points i bytes.now) }
{
    let index = BigEndian::read_i32(bytes);
    if index < 0 || index as u32 >= points {
        return None;
    }
    Some(index as u32)
}

impl FixedCell for [u32; 3] {
    ghost list = { λ c. c };

    ghost size = { 3 };

    fn size() -> usize {
        3
    }

    fn indices(&self) -> &[u32] {
        self.as_slice()
    }

    #[inline(always)]
    fn front(bytes: &[u8], points: u32) -> Option<[u32; 3]> {
        if bytes.len() < 16 || !starts_with(bytes, 3) {
            return None;
        }
        let first = behind(bytes, 4);
        let second = behind(first, 4);
        let third = behind(second, 4);
        let a = index_in(first, points)?;
        let b = index_in(second, points)?;
        let c = index_in(third, points)?;
        Some([a, b, c])
    }
}

impl FixedCell for [u32; 4] {
    ghost list = { λ c. c };

    ghost size = { 4 };

    fn size() -> usize {
        4
    }

    fn indices(&self) -> &[u32] {
        self.as_slice()
    }

    #[inline(always)]
    fn front(bytes: &[u8], points: u32) -> Option<[u32; 4]> {
        if bytes.len() < 20 || !starts_with(bytes, 4) {
            return None;
        }
        let first = behind(bytes, 4);
        let second = behind(first, 4);
        let third = behind(second, 4);
        let fourth = behind(third, 4);
        let a = index_in(first, points)?;
        let b = index_in(second, points)?;
        let c = index_in(third, points)?;
        let d = index_in(fourth, points)?;
        Some([a, b, c, d])
    }
}

/// The numbers of cells: of each its count, and then its indices.
pub fn flattened<C: FixedCell>(alloc: Global, cells: &[C]) -> Result<Vec<u32>, AllocError>
    ensures value { IfOk result (λ v. v.items ≡ flat_map (λ c. cell_numbers (C.list c)) cells.now) }
{
    let room = cells.len().saturating_mul(C::size() + 1);
    let mut numbers = Vec::with_capacity(alloc, room)?;
    for cell in cells {
        numbers.push(C::size() as u32)?;
        numbers.extend_from_slice(cell.indices())?;
    }
    Ok(numbers)
}
