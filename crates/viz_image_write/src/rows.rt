//! The values of an image: a line for each row, or their bytes.

ghost use Rattle.std.specs.Prelude.{◌≡◌, ◌≤◌, ◌<◌, ◌+◌, ◌++◌, map, drop, length, OnOk};
ghost use Rattle.std.specs.List.{flat_map};
ghost use Rattle.viz_column.specs.Bytes.{block_of};
ghost use Rattle.viz_image_write.specs.ImageText.{spaced_number, row_text, rows_text, values_text};

use crate::digits::Digits;
use crate::left::{Block, left_byte};
use std::alloc::{AllocError, Global};
use viz_column::{Column, Lent, Number};

/// So many numbers are turned into bytes at once.
const CHUNK: usize = 1 << 15;

/// So many numbers are turned into words at once.
const NUMBERS: usize = 2_048;

/// A number behind a space, in front of what stands from `end` on.
#[inline(always)]
fn left_spaced<T: Digits>(block: &mut [u8], end: usize, n: T) -> usize
    requires room { 22 ≤ end }
    requires within { end ≤ length block.old }
    ensures written { drop result block.new
        ≡ spaced_number (T.value n) ++ drop end block.old }
    ensures at { result ≤ end }
    ensures most { end ≤ result + 22 }
{
    let at = n.put_left(block, end);
    left_byte(block, at, b' ')
}

/// Numbers, each behind a space, at the end of a block, and where they begin.
fn fill<T: Digits>(block: &mut [u8], values: &[T]) -> usize
    requires few { length values.now ≤ 2048 }
    requires room { length block.old ≡ 65536 }
    ensures written { drop result block.new ≡ flat_map spaced_number (map T.value values.now) }
    ensures at { result ≤ 65536 }
{
    let mut end = block.len();
    let n = values.len();
    for k in 0..n {
        end = left_spaced(block, end, values[n - 1 - k]);
    }
    end
}

/// The same without the space in front of the first.
fn fill_front<T: Digits>(block: &mut [u8], values: &[T]) -> usize
    requires some { 0 < length values.now }
    requires few { length values.now ≤ 2048 }
    requires room { length block.old ≡ 65536 }
    ensures written { drop result block.new
        ≡ drop 1 (flat_map spaced_number (map T.value values.now)) }
    ensures at { result ≤ 65536 }
{
    let start = fill(block, values);
    start + 1
}

/// The first numbers of a row.
fn put_front<T: Digits>(
    text: &mut Vec<u8>,
    block: &mut Block,
    values: &[T],
) -> Result<(), AllocError>
    requires some { 0 < length values.now }
    requires few { length values.now ≤ 2048 }
    ensures { OnOk result (text.new.items
        ≡ text.old.items ++ drop 1 (flat_map spaced_number (map T.value values.now))) }
{
    let start = fill_front(&mut block.bytes, values);
    text.extend_from_slice(&block.bytes[start..])
}

/// Further numbers of a row.
fn put_part<T: Digits>(
    text: &mut Vec<u8>,
    block: &mut Block,
    values: &[T],
) -> Result<(), AllocError>
    requires few { length values.now ≤ 2048 }
    ensures { OnOk result (text.new.items
        ≡ text.old.items ++ flat_map spaced_number (map T.value values.now)) }
{
    let start = fill(&mut block.bytes, values);
    text.extend_from_slice(&block.bytes[start..])
}

/// All numbers of a row behind its first ones.
fn put_others<T: Digits>(
    text: &mut Vec<u8>,
    block: &mut Block,
    values: &[T],
) -> Result<(), AllocError>
    ensures { OnOk result (text.new.items
        ≡ text.old.items ++ flat_map spaced_number (map T.value values.now)) }
{
    let mut left = values;
    while !left.is_empty() {
        let (front, behind) = left.split_at(NUMBERS.min(left.len()));
        put_part(text, block, front)?;
        left = behind;
    }
    Ok(())
}

/// The numbers of a row, a space between two.
fn put_numbers<T: Digits>(
    text: &mut Vec<u8>,
    block: &mut Block,
    row: &[T],
) -> Result<(), AllocError>
    ensures { OnOk result (text.new.items
        ≡ text.old.items ++ drop 1 (flat_map spaced_number (map T.value row.now))) }
{
    if row.is_empty() {
        return Ok(());
    }
    let (front, behind) = row.split_at(NUMBERS.min(row.len()));
    put_front(text, block, front)?;
    put_others(text, block, behind)?;
    Ok(())
}

/// One row of values as a line.
fn put_row<T: Digits>(text: &mut Vec<u8>, block: &mut Block, row: &[T]) -> Result<(), AllocError>
    ensures { OnOk result (text.new.items ≡ text.old.items ++ row_text (map T.value row.now)) }
{
    put_numbers(text, block, row)?;
    text.push(b'\n')?;
    Ok(())
}

/// So many rows of so many values.
fn put_rows<T: Digits>(
    text: &mut Vec<u8>,
    block: &mut Block,
    rows: u64,
    width: usize,
    values: &[T],
) -> Result<(), AllocError>
    ensures { OnOk result (text.new.items
        ≡ text.old.items ++ rows_text rows width (map T.value values.now)) }
{
    let mut left = values;
    for _ in 0..rows {
        let (row, behind) = left.split_at(width.min(left.len()));
        put_row(text, block, row)?;
        left = behind;
    }
    Ok(())
}

/// The bytes of all values, the highest byte of each first.
fn put_block<T: Number>(alloc: Global, text: &mut Vec<u8>, values: &[T]) -> Result<(), AllocError>
    ensures { OnOk result (text.new.items
        ≡ text.old.items ++ block_of (record { kind = T.kind; items = map T.value values.now })) }
{
    let mut left = values;
    while !left.is_empty() {
        let (front, behind) = left.split_at(CHUNK.min(left.len()));
        let block = T::to_block(alloc, front)?;
        text.extend_from_slice(&block)?;
        left = behind;
    }
    Ok(())
}

/// The values of a column of one type: so many rows of so many, or their bytes.
fn put_values<T: Digits>(
    alloc: Global,
    text: &mut Vec<u8>,
    binary: bool,
    rows: u64,
    width: usize,
    values: &[T],
) -> Result<(), AllocError>
    ensures { OnOk result (text.new.items ≡ text.old.items ++ values_text binary rows width
        (record { kind = T.kind; items = map T.value values.now })) }
{
    if binary {
        put_block(alloc, text, values)?;
        text.push(b'\n')?;
    } else {
        let mut block = Block::new(alloc)?;
        put_rows(text, &mut block, rows, width, values)?;
    }
    Ok(())
}

/// The values of a column, of whatever type they are.
pub(crate) fn put_column(
    alloc: Global,
    text: &mut Vec<u8>,
    binary: bool,
    rows: u64,
    width: usize,
    column: &Column,
) -> Result<(), AllocError>
    ensures { OnOk result (text.new.items
        ≡ text.old.items ++ values_text binary rows width column.now) }
{
    match column.slice() {
        Lent::I8(values) => put_values(alloc, text, binary, rows, width, values),
        Lent::U8(values) => put_values(alloc, text, binary, rows, width, values),
        Lent::I16(values) => put_values(alloc, text, binary, rows, width, values),
        Lent::U16(values) => put_values(alloc, text, binary, rows, width, values),
        Lent::I32(values) => put_values(alloc, text, binary, rows, width, values),
        Lent::U32(values) => put_values(alloc, text, binary, rows, width, values),
        Lent::I64(values) => put_values(alloc, text, binary, rows, width, values),
        Lent::U64(values) => put_values(alloc, text, binary, rows, width, values),
    }
}
