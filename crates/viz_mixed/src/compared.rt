//! The eight types of numbers, as one to a generic function.

ghost use Rattle.std.specs.Prelude.{◌≡◌, map, IfOk};
ghost use Rattle.viz_lanes.specs.Planes.{at_least};

use std::alloc::{AllocError, Global};
use viz_column::Number;
use viz_lanes::{
    Bits, at_least_i8, at_least_i16, at_least_i32, at_least_i64, at_least_u8, at_least_u16,
    at_least_u32, at_least_u64,
};

/// A type of numbers that are compared 64 at a time.
pub(crate) trait Compared: Number {
    /// Whether each number is at least v.
    fn at_least(alloc: Global, numbers: &[Self], v: Self) -> Result<Bits, AllocError>
        ensures { IfOk result (λ bits.
            bits ≡ at_least (Self.value v) (map Self.value numbers.now)) };
}

impl Compared for i8 {
    fn at_least(alloc: Global, numbers: &[i8], v: i8) -> Result<Bits, AllocError> {
        at_least_i8(alloc, numbers, v)
    }
}

impl Compared for u8 {
    fn at_least(alloc: Global, numbers: &[u8], v: u8) -> Result<Bits, AllocError> {
        at_least_u8(alloc, numbers, v)
    }
}

impl Compared for i16 {
    fn at_least(alloc: Global, numbers: &[i16], v: i16) -> Result<Bits, AllocError> {
        at_least_i16(alloc, numbers, v)
    }
}

impl Compared for u16 {
    fn at_least(alloc: Global, numbers: &[u16], v: u16) -> Result<Bits, AllocError> {
        at_least_u16(alloc, numbers, v)
    }
}

impl Compared for i32 {
    fn at_least(alloc: Global, numbers: &[i32], v: i32) -> Result<Bits, AllocError> {
        at_least_i32(alloc, numbers, v)
    }
}

impl Compared for u32 {
    fn at_least(alloc: Global, numbers: &[u32], v: u32) -> Result<Bits, AllocError> {
        at_least_u32(alloc, numbers, v)
    }
}

impl Compared for i64 {
    fn at_least(alloc: Global, numbers: &[i64], v: i64) -> Result<Bits, AllocError> {
        at_least_i64(alloc, numbers, v)
    }
}

impl Compared for u64 {
    fn at_least(alloc: Global, numbers: &[u64], v: u64) -> Result<Bits, AllocError> {
        at_least_u64(alloc, numbers, v)
    }
}
