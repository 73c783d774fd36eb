//! The four types with a sign.

ghost use Rattle.std.specs.Prelude.{◌≡◌, map};
ghost use Rattle.viz_column.specs.declared.kind.Kind8.TheVariants.{I8, I16, I32, I64};
ghost use Rattle.viz_column.specs.Typed.{held_by};

use crate::kind::Kind8;
use crate::lent::Lent;
use crate::number::Number;
use crate::typed::Typed;
use crate::vectors::{filled, signed_bytes};
use byteorder::{BigEndian, ByteOrder};
use std::alloc::{AllocError, Global};

impl Number for i8 {
    ghost kind = { I8 };

    ghost value = { λ n. n };

    fn kind() -> Kind8 {
        Kind8::I8
    }

    fn zero() -> i8 {
        0
    }

    fn of_whole(n: i128) -> Option<i8> {
        i8::try_from(n).ok()
    }

    fn whole(self) -> i128 {
        i128::from(self)
    }

    fn from_block(alloc: Global, bytes: &[u8]) -> Result<Vec<i8>, AllocError> {
        signed_bytes(alloc, bytes)
    }

    fn to_block(alloc: Global, numbers: &[i8]) -> Result<Vec<u8>, AllocError> {
        let mut bytes = filled(alloc, 0, numbers.len())?;
        BigEndian::write_i8_into(numbers, &mut bytes);
        Ok(bytes)
    }

    fn typed(numbers: Vec<i8>) -> Typed
        ensures value { held_by result ≡ record { kind = I8; items = map (λ n. n) numbers.items } }
    {
        Typed::I8(numbers)
    }

    fn lent(lent: Lent<'_>) -> Option<&[i8]> {
        match lent {
            Lent::I8(numbers) => Some(numbers),
            _ => None,
        }
    }
}

impl Number for i16 {
    ghost kind = { I16 };

    ghost value = { λ n. n };

    fn kind() -> Kind8 {
        Kind8::I16
    }

    fn zero() -> i16 {
        0
    }

    fn of_whole(n: i128) -> Option<i16> {
        i16::try_from(n).ok()
    }

    fn whole(self) -> i128 {
        i128::from(self)
    }

    fn from_block(alloc: Global, bytes: &[u8]) -> Result<Vec<i16>, AllocError> {
        let mut numbers = filled(alloc, 0, bytes.len() / 2)?;
        BigEndian::read_i16_into(bytes, &mut numbers);
        Ok(numbers)
    }

    fn to_block(alloc: Global, numbers: &[i16]) -> Result<Vec<u8>, AllocError> {
        let mut bytes = filled(alloc, 0, 2 * numbers.len())?;
        BigEndian::write_i16_into(numbers, &mut bytes);
        Ok(bytes)
    }

    fn typed(numbers: Vec<i16>) -> Typed
        ensures value { held_by result ≡ record { kind = I16; items = map (λ n. n) numbers.items } }
    {
        Typed::I16(numbers)
    }

    fn lent(lent: Lent<'_>) -> Option<&[i16]> {
        match lent {
            Lent::I16(numbers) => Some(numbers),
            _ => None,
        }
    }
}

impl Number for i32 {
    ghost kind = { I32 };

    ghost value = { λ n. n };

    fn kind() -> Kind8 {
        Kind8::I32
    }

    fn zero() -> i32 {
        0
    }

    fn of_whole(n: i128) -> Option<i32> {
        i32::try_from(n).ok()
    }

    fn whole(self) -> i128 {
        i128::from(self)
    }

    fn from_block(alloc: Global, bytes: &[u8]) -> Result<Vec<i32>, AllocError> {
        let mut numbers = filled(alloc, 0, bytes.len() / 4)?;
        BigEndian::read_i32_into(bytes, &mut numbers);
        Ok(numbers)
    }

    fn to_block(alloc: Global, numbers: &[i32]) -> Result<Vec<u8>, AllocError> {
        let mut bytes = filled(alloc, 0, 4 * numbers.len())?;
        BigEndian::write_i32_into(numbers, &mut bytes);
        Ok(bytes)
    }

    fn typed(numbers: Vec<i32>) -> Typed
        ensures value { held_by result ≡ record { kind = I32; items = map (λ n. n) numbers.items } }
    {
        Typed::I32(numbers)
    }

    fn lent(lent: Lent<'_>) -> Option<&[i32]> {
        match lent {
            Lent::I32(numbers) => Some(numbers),
            _ => None,
        }
    }
}

impl Number for i64 {
    ghost kind = { I64 };

    ghost value = { λ n. n };

    fn kind() -> Kind8 {
        Kind8::I64
    }

    fn zero() -> i64 {
        0
    }

    fn of_whole(n: i128) -> Option<i64> {
        i64::try_from(n).ok()
    }

    fn whole(self) -> i128 {
        i128::from(self)
    }

    fn from_block(alloc: Global, bytes: &[u8]) -> Result<Vec<i64>, AllocError> {
        let mut numbers = filled(alloc, 0, bytes.len() / 8)?;
        BigEndian::read_i64_into(bytes, &mut numbers);
        Ok(numbers)
    }

    fn to_block(alloc: Global, numbers: &[i64]) -> Result<Vec<u8>, AllocError> {
        let mut bytes = filled(alloc, 0, 8 * numbers.len())?;
        BigEndian::write_i64_into(numbers, &mut bytes);
        Ok(bytes)
    }

    fn typed(numbers: Vec<i64>) -> Typed
        ensures value { held_by result ≡ record { kind = I64; items = map (λ n. n) numbers.items } }
    {
        Typed::I64(numbers)
    }

    fn lent(lent: Lent<'_>) -> Option<&[i64]> {
        match lent {
            Lent::I64(numbers) => Some(numbers),
            _ => None,
        }
    }
}
