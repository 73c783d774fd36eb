//! One bit plane: which numbers of a column are at least a level.

ghost use Rattle.std.specs.Prelude.{◌≡◌, map, IfOk, IfSome, int_le};
ghost use Rattle.viz_grid_section.specs.ImageSection.{insides};

use crate::compared::Compared;
use std::alloc::{AllocError, Global};
use viz_column::{Column, Lent};
use viz_lanes::Bits;

/// Whether each number of a column, of whatever type, is at least the level: 64 numbers at a time
/// where the type of the numbers holds the level.
pub fn plane_of(alloc: Global, column: &Column, level: &i64) -> Result<Bits, AllocError>
    ensures value { IfOk result (λ bits. bits ≡ insides level.now column.now.items) }
{
    match column.slice() {
        Lent::I8(numbers) => plane(alloc, numbers, level),
        Lent::U8(numbers) => plane(alloc, numbers, level),
        Lent::I16(numbers) => plane(alloc, numbers, level),
        Lent::U16(numbers) => plane(alloc, numbers, level),
        Lent::I32(numbers) => plane(alloc, numbers, level),
        Lent::U32(numbers) => plane(alloc, numbers, level),
        Lent::I64(numbers) => plane(alloc, numbers, level),
        Lent::U64(numbers) => plane(alloc, numbers, level),
    }
}

/// The same of numbers of one type: by lanes where the type holds the level.
fn plane<T: Compared>(alloc: Global, numbers: &[T], level: &i64) -> Result<Bits, AllocError>
    ensures { IfOk result (λ bits. bits ≡ insides level.now (map T.value numbers.now)) }
{
    match own(level) {
        Some(v) => T::at_least(alloc, numbers, v),
        None => each(alloc, numbers, level),
    }
}

/// The level as a number of the type, where that holds it.
fn own<T: Compared>(level: &i64) -> Option<T>
    ensures { IfSome result (λ v. T.value v ≡ level.now) }
{
    T::of_whole(i128::from(*level))
}

/// The same number by number.
fn each<T: Compared>(alloc: Global, numbers: &[T], level: &i64) -> Result<Bits, AllocError>
    ensures { IfOk result (λ bits. bits ≡ insides level.now (map T.value numbers.now)) }
{
    let mut bits = Bits::new(alloc);
    for number in numbers {
        bits.push(is_at_least(level, number))?;
    }
    Ok(bits)
}

/// A number that is at least the level.
fn is_at_least<T: Compared>(level: &i64, number: &T) -> bool
    ensures { result ≡ int_le level.now (T.value number.now) }
{
    i128::from(*level) <= number.whole()
}
