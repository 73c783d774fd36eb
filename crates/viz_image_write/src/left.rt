//! Numbers in front of what stands at the end of a block.

ghost use Rattle.std.specs.Prelude.{◌≡◌, ◌≤◌, ◌+◌, ◌∷◌, ◌++◌, IfOk, length, drop, pos};
ghost use Rattle.std.specs.Fmt.{decimal, signed_decimal};
ghost use Rattle.viz_column.specs.declared.kind.Kind8.TheVariants.{I32, I64};
ghost use Rattle.viz_column.specs.Bytes.{bytes_of};

use itoa::write_digits;
use std::alloc::{AllocError, Global};

/// How many bytes a block has.
const BYTES: usize = 65_536;

/// Bytes that are filled from their end, the last row first, and then put behind a text at once:
/// one append is dear beside the digits of a number.
#[derive(Drop)]
pub struct Block {
    pub bytes: Vec<u8>,
    ghost room: { length bytes.items ≡ 65536 },
}

impl Block {
    /// A block of zeros.
    ///
    /// # Errors
    ///
    /// Want of memory.
    pub fn new(alloc: Global) -> Result<Block, AllocError> {
        Ok(Block {
            bytes: zeros(alloc)?,
        })
    }
}

/// The zeros of a block.
fn zeros(alloc: Global) -> Result<Vec<u8>, AllocError>
    ensures { IfOk result (λ bytes. length bytes.items ≡ 65536) }
{
    let mut bytes = Vec::with_capacity(alloc, BYTES)?;
    bytes.resize(BYTES, 0)?;
    Ok(bytes)
}

/// Puts a byte in front of what stands from `end` on, and returns where it is.
#[inline(always)]
pub fn left_byte(block: &mut [u8], end: usize, byte: u8) -> usize
    requires room { 1 ≤ end }
    requires within { end ≤ length block.old }
    ensures written { drop result block.new ≡ byte ∷ drop end block.old }
    ensures at { result + 1 ≡ end }
{
    block[end - 1] = byte;
    end - 1
}

/// Puts a count in words there, and returns where it begins.
#[inline(always)]
pub fn left_count(block: &mut [u8], end: usize, n: u64) -> usize
    requires room { 20 ≤ end }
    requires within { end ≤ length block.old }
    ensures written { drop result block.new ≡ decimal n ++ drop end block.old }
    ensures at { result ≤ end }
    ensures most { end ≤ result + 20 }
{
    write_digits(n, block, end)
}

/// Puts a number in words there, and returns where it begins.
#[inline(always)]
pub fn left_number(block: &mut [u8], end: usize, n: &i64) -> usize
    requires room { 21 ≤ end }
    requires within { end ≤ length block.old }
    ensures written { drop result block.new ≡ signed_decimal n.now ++ drop end block.old }
    ensures at { result ≤ end }
    ensures most { end ≤ result + 21 }
{
    let at = left_count(block, end, n.unsigned_abs());
    if *n >= 0 {
        return at;
    }
    left_byte(block, at, b'-')
}

/// Puts the 64 bits of a number there, the highest byte first.
#[inline(always)]
pub fn left_long(block: &mut [u8], end: usize, n: &i64) -> usize
    requires room { 8 ≤ end }
    requires within { end ≤ length block.old }
    ensures written { drop result block.new ≡ bytes_of I64 n.now ++ drop end block.old }
    ensures at { result + 8 ≡ end }
{
    block[end - 8..end].copy_from_slice(&n.to_be_bytes());
    end - 8
}

/// Puts the 32 bits of a count there, the highest byte first.
#[inline(always)]
pub fn left_int(block: &mut [u8], end: usize, n: u32) -> usize
    requires room { 4 ≤ end }
    requires within { end ≤ length block.old }
    ensures written { drop result block.new ≡ bytes_of I32 (pos n) ++ drop end block.old }
    ensures at { result + 4 ≡ end }
{
    block[end - 4..end].copy_from_slice(&n.to_be_bytes());
    end - 4
}
