//! Numbers of a column as text, each at its own type.

ghost use Rattle.std.specs.Prelude.{◌≡◌, ◌≤◌, ◌+◌, ◌++◌, length, drop};
ghost use Rattle.std.specs.Fmt.{signed_decimal};

use crate::left::{left_count, left_number};
use viz_column::Number;

/// A number of a column that can be written. Its digits are made at 64 bits, which is faster than
/// at 128 bits.
pub trait Digits: Number {
    /// Puts the digits of a number, with a minus sign in front if it is negative, in front of what
    /// stands from `end` on, and returns where they begin.
    fn put_left(self, block: &mut [u8], end: usize) -> usize
        requires room { 21 ≤ end }
        requires within { end ≤ length block.old }
        ensures written { drop result block.new
            ≡ signed_decimal (Self.value self) ++ drop end block.old }
        ensures at { result ≤ end }
        ensures most { end ≤ result + 21 };
}

impl Digits for i8 {
    #[inline(always)]
    fn put_left(self, block: &mut [u8], end: usize) -> usize {
        left_number(block, end, &i64::from(self))
    }
}

impl Digits for u8 {
    #[inline(always)]
    fn put_left(self, block: &mut [u8], end: usize) -> usize {
        left_count(block, end, u64::from(self))
    }
}

impl Digits for i16 {
    #[inline(always)]
    fn put_left(self, block: &mut [u8], end: usize) -> usize {
        left_number(block, end, &i64::from(self))
    }
}

impl Digits for u16 {
    #[inline(always)]
    fn put_left(self, block: &mut [u8], end: usize) -> usize {
        left_count(block, end, u64::from(self))
    }
}

impl Digits for i32 {
    #[inline(always)]
    fn put_left(self, block: &mut [u8], end: usize) -> usize {
        left_number(block, end, &i64::from(self))
    }
}

impl Digits for u32 {
    #[inline(always)]
    fn put_left(self, block: &mut [u8], end: usize) -> usize {
        left_count(block, end, u64::from(self))
    }
}

impl Digits for i64 {
    #[inline(always)]
    fn put_left(self, block: &mut [u8], end: usize) -> usize {
        left_number(block, end, &self)
    }
}

impl Digits for u64 {
    #[inline(always)]
    fn put_left(self, block: &mut [u8], end: usize) -> usize {
        left_count(block, end, self)
    }
}
