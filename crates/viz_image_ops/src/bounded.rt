//! The eight types of numbers, as one to a generic function.

ghost use Rattle.std.specs.Prelude.{◌≡◌, true, map, IfOk};
ghost use Rattle.viz_column.specs.Kinds.{fits};
ghost use Rattle.viz_lanes.specs.Planes.{kept_within};

use std::alloc::{AllocError, Global};
use viz_column::Number;
use viz_lanes::{
    keep_within_i8, keep_within_i16, keep_within_i32, keep_within_i64, keep_within_u8,
    keep_within_u16, keep_within_u32, keep_within_u64,
};

/// A type of numbers that are kept within bounds.
pub(crate) trait Bounded: Number {
    /// Each number that is at least lo and at most hi, and 0 for every other.
    fn keep_within(
        alloc: Global,
        numbers: &[Self],
        lo: Self,
        hi: Self,
    ) -> Result<Vec<Self>, AllocError>
        ensures { IfOk result (λ kept. map Self.value kept.items
            ≡ kept_within (Self.value lo) (Self.value hi) (map Self.value numbers.now)) };
}

/// The number of a type that a number in its range is.
pub(crate) fn own<T: Number>(n: &i128) -> T
    requires { fits T.kind n.now ≡ true }
    ensures { T.value result ≡ n.now }
{
    match T::of_whole(*n) {
        Some(number) => number,
        None => unreachable!(),
    }
}

impl Bounded for i8 {
    fn keep_within(alloc: Global, numbers: &[i8], lo: i8, hi: i8) -> Result<Vec<i8>, AllocError> {
        keep_within_i8(alloc, numbers, lo, hi)
    }
}

impl Bounded for u8 {
    fn keep_within(alloc: Global, numbers: &[u8], lo: u8, hi: u8) -> Result<Vec<u8>, AllocError> {
        keep_within_u8(alloc, numbers, lo, hi)
    }
}

impl Bounded for i16 {
    fn keep_within(
        alloc: Global,
        numbers: &[i16],
        lo: i16,
        hi: i16,
    ) -> Result<Vec<i16>, AllocError> {
        keep_within_i16(alloc, numbers, lo, hi)
    }
}

impl Bounded for u16 {
    fn keep_within(
        alloc: Global,
        numbers: &[u16],
        lo: u16,
        hi: u16,
    ) -> Result<Vec<u16>, AllocError> {
        keep_within_u16(alloc, numbers, lo, hi)
    }
}

impl Bounded for i32 {
    fn keep_within(
        alloc: Global,
        numbers: &[i32],
        lo: i32,
        hi: i32,
    ) -> Result<Vec<i32>, AllocError> {
        keep_within_i32(alloc, numbers, lo, hi)
    }
}

impl Bounded for u32 {
    fn keep_within(
        alloc: Global,
        numbers: &[u32],
        lo: u32,
        hi: u32,
    ) -> Result<Vec<u32>, AllocError> {
        keep_within_u32(alloc, numbers, lo, hi)
    }
}

impl Bounded for i64 {
    fn keep_within(
        alloc: Global,
        numbers: &[i64],
        lo: i64,
        hi: i64,
    ) -> Result<Vec<i64>, AllocError> {
        keep_within_i64(alloc, numbers, lo, hi)
    }
}

impl Bounded for u64 {
    fn keep_within(
        alloc: Global,
        numbers: &[u64],
        lo: u64,
        hi: u64,
    ) -> Result<Vec<u64>, AllocError> {
        keep_within_u64(alloc, numbers, lo, hi)
    }
}
