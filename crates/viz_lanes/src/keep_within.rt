//! Each number that is at least lo and at most hi, and 0 for every other, for each of the eight
//! types.

ghost use Rattle.std.specs.Prelude.{◌≡◌, pos, map, IfOk};
ghost use Rattle.viz_lanes.specs.Planes.{kept_within};

use crate::plane::kept_plane;
use std::alloc::{AllocError, Global};

/// Item i: `xs[i]` where `lo <= xs[i] && xs[i] <= hi`, and 0 elsewhere.
pub fn keep_within_i8(alloc: Global, xs: &[i8], lo: i8, hi: i8) -> Result<Vec<i8>, AllocError>
    ensures value { IfOk result (λ kept. kept.items ≡ kept_within lo hi xs.now) }
{
    kept_plane(alloc, xs, lo, hi)
}

/// Item i: `xs[i]` where `lo <= xs[i] && xs[i] <= hi`, and 0 elsewhere.
pub fn keep_within_u8(alloc: Global, xs: &[u8], lo: u8, hi: u8) -> Result<Vec<u8>, AllocError>
    ensures value { IfOk result (λ kept.
        map (λ x. pos x) kept.items ≡ kept_within (pos lo) (pos hi) (map (λ x. pos x) xs.now)) }
{
    kept_plane(alloc, xs, lo, hi)
}

/// Item i: `xs[i]` where `lo <= xs[i] && xs[i] <= hi`, and 0 elsewhere.
pub fn keep_within_i16(alloc: Global, xs: &[i16], lo: i16, hi: i16) -> Result<Vec<i16>, AllocError>
    ensures value { IfOk result (λ kept. kept.items ≡ kept_within lo hi xs.now) }
{
    kept_plane(alloc, xs, lo, hi)
}

/// Item i: `xs[i]` where `lo <= xs[i] && xs[i] <= hi`, and 0 elsewhere.
pub fn keep_within_u16(alloc: Global, xs: &[u16], lo: u16, hi: u16) -> Result<Vec<u16>, AllocError>
    ensures value { IfOk result (λ kept.
        map (λ x. pos x) kept.items ≡ kept_within (pos lo) (pos hi) (map (λ x. pos x) xs.now)) }
{
    kept_plane(alloc, xs, lo, hi)
}

/// Item i: `xs[i]` where `lo <= xs[i] && xs[i] <= hi`, and 0 elsewhere.
pub fn keep_within_i32(alloc: Global, xs: &[i32], lo: i32, hi: i32) -> Result<Vec<i32>, AllocError>
    ensures value { IfOk result (λ kept. kept.items ≡ kept_within lo hi xs.now) }
{
    kept_plane(alloc, xs, lo, hi)
}

/// Item i: `xs[i]` where `lo <= xs[i] && xs[i] <= hi`, and 0 elsewhere.
pub fn keep_within_u32(alloc: Global, xs: &[u32], lo: u32, hi: u32) -> Result<Vec<u32>, AllocError>
    ensures value { IfOk result (λ kept.
        map (λ x. pos x) kept.items ≡ kept_within (pos lo) (pos hi) (map (λ x. pos x) xs.now)) }
{
    kept_plane(alloc, xs, lo, hi)
}

/// Item i: `xs[i]` where `lo <= xs[i] && xs[i] <= hi`, and 0 elsewhere.
pub fn keep_within_i64(alloc: Global, xs: &[i64], lo: i64, hi: i64) -> Result<Vec<i64>, AllocError>
    ensures value { IfOk result (λ kept. kept.items ≡ kept_within lo hi xs.now) }
{
    kept_plane(alloc, xs, lo, hi)
}

/// Item i: `xs[i]` where `lo <= xs[i] && xs[i] <= hi`, and 0 elsewhere.
pub fn keep_within_u64(alloc: Global, xs: &[u64], lo: u64, hi: u64) -> Result<Vec<u64>, AllocError>
    ensures value { IfOk result (λ kept.
        map (λ x. pos x) kept.items ≡ kept_within (pos lo) (pos hi) (map (λ x. pos x) xs.now)) }
{
    kept_plane(alloc, xs, lo, hi)
}
