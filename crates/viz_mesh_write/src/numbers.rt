//! Numbers as words and as bytes, and rows of them.

ghost use Rattle.std.specs.Prelude.{◌≡◌, ◌≤◌, ◌+◌, ◌++◌, ◌∷◌, [], OnOk, true, false, length, drop};
ghost use Rattle.std.specs.Fmt.{decimal, signed_decimal};
ghost use Rattle.viz_column.specs.declared.kind.Kind8.TheVariants.{I64};
ghost use Rattle.viz_mesh_write.specs.Rows.{row_of, block_end};

use crate::target::Target;
use itoa::Buffer;
use std::alloc::AllocError;
use viz_image_write::{left_byte, left_long, left_number};

/// So many rows are made at once; each has at most 128 bytes.
pub(crate) const ROWS: usize = 512;

/// A count in words.
pub(crate) fn put_count(text: &mut Vec<u8>, n: u64) -> Result<(), AllocError>
    ensures { OnOk result (text.new.items ≡ text.old.items ++ decimal n) }
{
    let mut buffer = Buffer::new();
    text.extend_from_slice(buffer.format(n).as_bytes())
}

/// Three numbers as words, on a line.
#[inline(always)]
fn left_three_words(block: &mut [u8], end: usize, x: &i64, y: &i64, z: &i64) -> usize
    requires room { 128 ≤ end }
    requires within { end ≤ length block.old }
    ensures written { drop result block.new
        ≡ row_of false I64 (x.now ∷ y.now ∷ z.now ∷ []) ++ drop end block.old }
    ensures at { result ≤ end }
    ensures most { end ≤ result + 128 }
{
    let newline = left_byte(block, end, b'\n');
    let third = left_word(block, newline, z);
    let second = left_word(block, third, y);
    left_number(block, second, x)
}

/// A number behind a space.
#[inline(always)]
fn left_word(block: &mut [u8], end: usize, n: &i64) -> usize
    requires room { 22 ≤ end }
    requires within { end ≤ length block.old }
    ensures written { drop result block.new ≡ 32 ∷ signed_decimal n.now ++ drop end block.old }
    ensures at { result ≤ end }
    ensures most { end ≤ result + 22 }
{
    let at = left_number(block, end, n);
    left_byte(block, at, b' ')
}

/// The bytes of three numbers.
#[inline(always)]
fn left_three_longs(block: &mut [u8], end: usize, x: &i64, y: &i64, z: &i64) -> usize
    requires room { 128 ≤ end }
    requires within { end ≤ length block.old }
    ensures written { drop result block.new
        ≡ row_of true I64 (x.now ∷ y.now ∷ z.now ∷ []) ++ drop end block.old }
    ensures at { result ≤ end }
    ensures most { end ≤ result + 128 }
{
    let third = left_long(block, end, z);
    let second = left_long(block, third, y);
    left_long(block, second, x)
}

/// A row of three numbers.
#[inline(always)]
pub(crate) fn left_three(
    block: &mut [u8],
    end: usize,
    binary: bool,
    x: &i64,
    y: &i64,
    z: &i64,
) -> usize
    requires room { 128 ≤ end }
    requires within { end ≤ length block.old }
    ensures written { drop result block.new
        ≡ row_of binary I64 (x.now ∷ y.now ∷ z.now ∷ []) ++ drop end block.old }
    ensures at { result ≤ end }
    ensures most { end ≤ result + 128 }
{
    if binary {
        left_three_longs(block, end, x, y, z)
    } else {
        left_three_words(block, end, x, y, z)
    }
}

/// A number as words, on a line.
#[inline(always)]
fn left_line(block: &mut [u8], end: usize, n: &i64) -> usize
    requires room { 128 ≤ end }
    requires within { end ≤ length block.old }
    ensures written { drop result block.new
        ≡ row_of false I64 (n.now ∷ []) ++ drop end block.old }
    ensures at { result ≤ end }
    ensures most { end ≤ result + 128 }
{
    let newline = left_byte(block, end, b'\n');
    left_number(block, newline, n)
}

/// A row of one number.
#[inline(always)]
pub(crate) fn left_one(block: &mut [u8], end: usize, binary: bool, n: &i64) -> usize
    requires room { 128 ≤ end }
    requires within { end ≤ length block.old }
    ensures written { drop result block.new
        ≡ row_of binary I64 (n.now ∷ []) ++ drop end block.old }
    ensures at { result ≤ end }
    ensures most { end ≤ result + 128 }
{
    if binary {
        left_long(block, end, n)
    } else {
        left_line(block, end, n)
    }
}

/// What stands behind so many rows: in BINARY a newline, where there is one.
pub(crate) fn put_end<T: Target>(text: &mut T, binary: bool, rows: u64) -> Result<(), AllocError>
    ensures { OnOk result (T.text text.new ≡ T.text text.old ++ block_end binary rows) }
{
    if binary && rows != 0 {
        let mut line = text.line();
        line.push(b'\n')?;
        text.put(line)?;
    }
    Ok(())
}
