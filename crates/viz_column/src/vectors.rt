//! Vectors that are made at once.

ghost use Rattle.std.specs.Prelude.{◌≡◌, map, replicate, vec_len, IfOk};
ghost use Rattle.std.specs.Int.{w8, cast_signed};

use std::alloc::{AllocError, Global};

/// So many values, all the same.
pub fn filled<T: Copy>(alloc: Global, value: T, count: usize) -> Result<Vec<T>, AllocError>
    ensures value { IfOk result (λ v. v.items ≡ replicate count value) }
    ensures long { IfOk result (λ v. vec_len v ≡ count) }
{
    let mut values = Vec::new(alloc);
    values.resize(count, value)?;
    Ok(values)
}

/// The same values again.
pub fn copied<T: Copy>(alloc: Global, values: &[T]) -> Result<Vec<T>, AllocError>
    ensures { IfOk result (λ v. v.items ≡ values.now) }
{
    let mut copy = Vec::new(alloc);
    copy.extend_from_slice(values)?;
    Ok(copy)
}

/// The numbers that single bytes are in two's complement.
pub fn signed_bytes(alloc: Global, bytes: &[u8]) -> Result<Vec<i8>, AllocError>
    ensures { IfOk result (λ v. v.items ≡ map (λ b. cast_signed w8 b) bytes.now) }
{
    bytes.iter().map(|b| b.cast_signed()).collect(alloc)
}
