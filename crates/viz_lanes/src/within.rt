//! Whether each number is at least lo and at most hi, for each of the eight types.

ghost use Rattle.std.specs.Prelude.{◌≡◌, pos, map, IfOk};
ghost use Rattle.viz_lanes.specs.Planes.{within};

use crate::bits::Bits;
use crate::plane::within_plane;
use std::alloc::{AllocError, Global};

/// Bit i: `lo <= xs[i] && xs[i] <= hi`.
pub fn within_i8(alloc: Global, xs: &[i8], lo: i8, hi: i8) -> Result<Bits, AllocError>
    ensures value { IfOk result (λ bits. bits ≡ within lo hi xs.now) }
{
    within_plane(alloc, xs, lo, hi)
}

/// Bit i: `lo <= xs[i] && xs[i] <= hi`.
pub fn within_u8(alloc: Global, xs: &[u8], lo: u8, hi: u8) -> Result<Bits, AllocError>
    ensures value { IfOk result (λ bits.
        bits ≡ within (pos lo) (pos hi) (map (λ x. pos x) xs.now)) }
{
    within_plane(alloc, xs, lo, hi)
}

/// Bit i: `lo <= xs[i] && xs[i] <= hi`.
pub fn within_i16(alloc: Global, xs: &[i16], lo: i16, hi: i16) -> Result<Bits, AllocError>
    ensures value { IfOk result (λ bits. bits ≡ within lo hi xs.now) }
{
    within_plane(alloc, xs, lo, hi)
}

/// Bit i: `lo <= xs[i] && xs[i] <= hi`.
pub fn within_u16(alloc: Global, xs: &[u16], lo: u16, hi: u16) -> Result<Bits, AllocError>
    ensures value { IfOk result (λ bits.
        bits ≡ within (pos lo) (pos hi) (map (λ x. pos x) xs.now)) }
{
    within_plane(alloc, xs, lo, hi)
}

/// Bit i: `lo <= xs[i] && xs[i] <= hi`.
pub fn within_i32(alloc: Global, xs: &[i32], lo: i32, hi: i32) -> Result<Bits, AllocError>
    ensures value { IfOk result (λ bits. bits ≡ within lo hi xs.now) }
{
    within_plane(alloc, xs, lo, hi)
}

/// Bit i: `lo <= xs[i] && xs[i] <= hi`.
pub fn within_u32(alloc: Global, xs: &[u32], lo: u32, hi: u32) -> Result<Bits, AllocError>
    ensures value { IfOk result (λ bits.
        bits ≡ within (pos lo) (pos hi) (map (λ x. pos x) xs.now)) }
{
    within_plane(alloc, xs, lo, hi)
}

/// Bit i: `lo <= xs[i] && xs[i] <= hi`.
pub fn within_i64(alloc: Global, xs: &[i64], lo: i64, hi: i64) -> Result<Bits, AllocError>
    ensures value { IfOk result (λ bits. bits ≡ within lo hi xs.now) }
{
    within_plane(alloc, xs, lo, hi)
}

/// Bit i: `lo <= xs[i] && xs[i] <= hi`.
pub fn within_u64(alloc: Global, xs: &[u64], lo: u64, hi: u64) -> Result<Bits, AllocError>
    ensures value { IfOk result (λ bits.
        bits ≡ within (pos lo) (pos hi) (map (λ x. pos x) xs.now)) }
{
    within_plane(alloc, xs, lo, hi)
}
