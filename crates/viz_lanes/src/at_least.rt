//! Whether each number is at least v, for each of the eight types.

ghost use Rattle.std.specs.Prelude.{◌≡◌, pos, map, IfOk};
ghost use Rattle.viz_lanes.specs.Planes.{at_least};

use crate::bits::Bits;
use crate::plane::at_least_plane;
use std::alloc::{AllocError, Global};

/// Bit i: `xs[i] >= v`.
pub fn at_least_i8(alloc: Global, xs: &[i8], v: i8) -> Result<Bits, AllocError>
    ensures value { IfOk result (λ bits. bits ≡ at_least v xs.now) }
{
    at_least_plane(alloc, xs, v)
}

/// Bit i: `xs[i] >= v`.
pub fn at_least_u8(alloc: Global, xs: &[u8], v: u8) -> Result<Bits, AllocError>
    ensures value { IfOk result (λ bits. bits ≡ at_least (pos v) (map (λ x. pos x) xs.now)) }
{
    at_least_plane(alloc, xs, v)
}

/// Bit i: `xs[i] >= v`.
pub fn at_least_i16(alloc: Global, xs: &[i16], v: i16) -> Result<Bits, AllocError>
    ensures value { IfOk result (λ bits. bits ≡ at_least v xs.now) }
{
    at_least_plane(alloc, xs, v)
}

/// Bit i: `xs[i] >= v`.
pub fn at_least_u16(alloc: Global, xs: &[u16], v: u16) -> Result<Bits, AllocError>
    ensures value { IfOk result (λ bits. bits ≡ at_least (pos v) (map (λ x. pos x) xs.now)) }
{
    at_least_plane(alloc, xs, v)
}

/// Bit i: `xs[i] >= v`.
pub fn at_least_i32(alloc: Global, xs: &[i32], v: i32) -> Result<Bits, AllocError>
    ensures value { IfOk result (λ bits. bits ≡ at_least v xs.now) }
{
    at_least_plane(alloc, xs, v)
}

/// Bit i: `xs[i] >= v`.
pub fn at_least_u32(alloc: Global, xs: &[u32], v: u32) -> Result<Bits, AllocError>
    ensures value { IfOk result (λ bits. bits ≡ at_least (pos v) (map (λ x. pos x) xs.now)) }
{
    at_least_plane(alloc, xs, v)
}

/// Bit i: `xs[i] >= v`.
pub fn at_least_i64(alloc: Global, xs: &[i64], v: i64) -> Result<Bits, AllocError>
    ensures value { IfOk result (λ bits. bits ≡ at_least v xs.now) }
{
    at_least_plane(alloc, xs, v)
}

/// Bit i: `xs[i] >= v`.
pub fn at_least_u64(alloc: Global, xs: &[u64], v: u64) -> Result<Bits, AllocError>
    ensures value { IfOk result (λ bits. bits ≡ at_least (pos v) (map (λ x. pos x) xs.now)) }
{
    at_least_plane(alloc, xs, v)
}
