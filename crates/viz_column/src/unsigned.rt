//! The four types without a sign.

ghost use Rattle.std.specs.Prelude.{◌≡◌, pos, map};
ghost use Rattle.viz_column.specs.declared.kind.Kind8.TheVariants.{U8, U16, U32, U64};
ghost use Rattle.viz_column.specs.Typed.{held_by};

use crate::kind::Kind8;
use crate::lent::Lent;
use crate::number::Number;
use crate::typed::Typed;
use crate::vectors::{copied, filled};
use byteorder::{BigEndian, ByteOrder};
use std::alloc::{AllocError, Global};

impl Number for u8 {
    ghost kind = { U8 };

    ghost value = { λ n. pos n };

    fn kind() -> Kind8 {
        Kind8::U8
    }

    fn zero() -> u8 {
        0
    }

    fn of_whole(n: i128) -> Option<u8> {
        u8::try_from(n).ok()
    }

    fn whole(self) -> i128 {
        i128::from(self)
    }

    fn from_block(alloc: Global, bytes: &[u8]) -> Result<Vec<u8>, AllocError> {
        copied(alloc, bytes)
    }

    fn to_block(alloc: Global, numbers: &[u8]) -> Result<Vec<u8>, AllocError> {
        copied(alloc, numbers)
    }

    fn typed(numbers: Vec<u8>) -> Typed
        ensures value { held_by result ≡ record { kind = U8; items = map (λ n. pos n) numbers.items } }
    {
        Typed::U8(numbers)
    }

    fn lent(lent: Lent<'_>) -> Option<&[u8]> {
        match lent {
            Lent::U8(numbers) => Some(numbers),
            _ => None,
        }
    }
}

impl Number for u16 {
    ghost kind = { U16 };

    ghost value = { λ n. pos n };

    fn kind() -> Kind8 {
        Kind8::U16
    }

    fn zero() -> u16 {
        0
    }

    fn of_whole(n: i128) -> Option<u16> {
        u16::try_from(n).ok()
    }

    fn whole(self) -> i128 {
        i128::from(self)
    }

    fn from_block(alloc: Global, bytes: &[u8]) -> Result<Vec<u16>, AllocError> {
        let mut numbers = filled(alloc, 0, bytes.len() / 2)?;
        BigEndian::read_u16_into(bytes, &mut numbers);
        Ok(numbers)
    }

    fn to_block(alloc: Global, numbers: &[u16]) -> Result<Vec<u8>, AllocError> {
        let mut bytes = filled(alloc, 0, 2 * numbers.len())?;
        BigEndian::write_u16_into(numbers, &mut bytes);
        Ok(bytes)
    }

    fn typed(numbers: Vec<u16>) -> Typed
        ensures value { held_by result ≡ record { kind = U16; items = map (λ n. pos n) numbers.items } }
    {
        Typed::U16(numbers)
    }

    fn lent(lent: Lent<'_>) -> Option<&[u16]> {
        match lent {
            Lent::U16(numbers) => Some(numbers),
            _ => None,
        }
    }
}

impl Number for u32 {
    ghost kind = { U32 };

    ghost value = { λ n. pos n };

    fn kind() -> Kind8 {
        Kind8::U32
    }

    fn zero() -> u32 {
        0
    }

    fn of_whole(n: i128) -> Option<u32> {
        u32::try_from(n).ok()
    }

    fn whole(self) -> i128 {
        i128::from(self)
    }

    fn from_block(alloc: Global, bytes: &[u8]) -> Result<Vec<u32>, AllocError> {
        let mut numbers = filled(alloc, 0, bytes.len() / 4)?;
        BigEndian::read_u32_into(bytes, &mut numbers);
        Ok(numbers)
    }

    fn to_block(alloc: Global, numbers: &[u32]) -> Result<Vec<u8>, AllocError> {
        let mut bytes = filled(alloc, 0, 4 * numbers.len())?;
        BigEndian::write_u32_into(numbers, &mut bytes);
        Ok(bytes)
    }

    fn typed(numbers: Vec<u32>) -> Typed
        ensures value { held_by result ≡ record { kind = U32; items = map (λ n. pos n) numbers.items } }
    {
        Typed::U32(numbers)
    }

    fn lent(lent: Lent<'_>) -> Option<&[u32]> {
        match lent {
            Lent::U32(numbers) => Some(numbers),
            _ => None,
        }
    }
}

impl Number for u64 {
    ghost kind = { U64 };

    ghost value = { λ n. pos n };

    fn kind() -> Kind8 {
        Kind8::U64
    }

    fn zero() -> u64 {
        0
    }

    fn of_whole(n: i128) -> Option<u64> {
        u64::try_from(n).ok()
    }

    fn whole(self) -> i128 {
        i128::from(self)
    }

    fn from_block(alloc: Global, bytes: &[u8]) -> Result<Vec<u64>, AllocError> {
        let mut numbers = filled(alloc, 0, bytes.len() / 8)?;
        BigEndian::read_u64_into(bytes, &mut numbers);
        Ok(numbers)
    }

    fn to_block(alloc: Global, numbers: &[u64]) -> Result<Vec<u8>, AllocError> {
        let mut bytes = filled(alloc, 0, 8 * numbers.len())?;
        BigEndian::write_u64_into(numbers, &mut bytes);
        Ok(bytes)
    }

    fn typed(numbers: Vec<u64>) -> Typed
        ensures value { held_by result ≡ record { kind = U64; items = map (λ n. pos n) numbers.items } }
    {
        Typed::U64(numbers)
    }

    fn lent(lent: Lent<'_>) -> Option<&[u64]> {
        match lent {
            Lent::U64(numbers) => Some(numbers),
            _ => None,
        }
    }
}
