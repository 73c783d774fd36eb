//! A column.

ghost use Rattle.std.specs.Prelude.{◌≡◌, ◌↔◌, ◌<◌, ◌++◌, ◌∷◌, [], length, true, map};
ghost use Rattle.std.specs.Prelude.{slice_index_or, pos, IsSome, IfSome, IfOk, OnOk, OnErr};
ghost use Rattle.viz_column.specs.Kinds.{fits};
ghost use Rattle.viz_column.specs.Numbers.{AreInRange};
ghost use Rattle.viz_column.specs.Bytes.{block_of, IsBlock, numbers_of};
ghost use Rattle.viz_column.specs.Typed.{held_by};
ghost use Rattle.viz_column.specs.Lent.{lent_by};

use crate::kind::Kind8;
use crate::lent::Lent;
use crate::number::Number;
use crate::typed::Typed;
use std::alloc::{AllocError, Global};
use std::marker::Model;

/// Whole numbers of one of eight types, in one vector of that type.
#[derive(Debug, Drop)]
pub struct Column {
    typed: Typed,
}

impl Model for Column {
    ghost use Rattle.viz_column.specs.Numbers.{Numbers, AreInRange};

    ghost Value = { Numbers };

    ghost use Rattle.viz_column.specs.Typed.{held_by};

    ghost view = { λ c. held_by c.typed };

    ghost invariant = { λ c. AreInRange (held_by c.typed) };
}

macro_rules! each {
    ($typed:expr, $numbers:pat => $body:expr) => {
        match $typed {
            Typed::I8($numbers) => $body,
            Typed::U8($numbers) => $body,
            Typed::I16($numbers) => $body,
            Typed::U16($numbers) => $body,
            Typed::I32($numbers) => $body,
            Typed::U32($numbers) => $body,
            Typed::I64($numbers) => $body,
            Typed::U64($numbers) => $body,
        }
    };
}

impl Column {
    /// No number yet.
    pub fn new(alloc: Global, kind: Kind8) -> Column
        ensures value { result ≡ record { kind = kind; items = [] } }
    {
        let typed = match kind {
            Kind8::I8 => Typed::I8(Vec::new(alloc)),
            Kind8::U8 => Typed::U8(Vec::new(alloc)),
            Kind8::I16 => Typed::I16(Vec::new(alloc)),
            Kind8::U16 => Typed::U16(Vec::new(alloc)),
            Kind8::I32 => Typed::I32(Vec::new(alloc)),
            Kind8::U32 => Typed::U32(Vec::new(alloc)),
            Kind8::I64 => Typed::I64(Vec::new(alloc)),
            Kind8::U64 => Typed::U64(Vec::new(alloc)),
        };
        Column { typed }
    }

    /// No number yet, with room for so many: `push` takes no memory for them.
    pub fn with_room(alloc: Global, kind: Kind8, room: usize) -> Result<Column, AllocError>
        ensures value { IfOk result (λ c. c ≡ record { kind = kind; items = [] }) }
    {
        let typed = match kind {
            Kind8::I8 => Typed::I8(Vec::with_capacity(alloc, room)?),
            Kind8::U8 => Typed::U8(Vec::with_capacity(alloc, room)?),
            Kind8::I16 => Typed::I16(Vec::with_capacity(alloc, room)?),
            Kind8::U16 => Typed::U16(Vec::with_capacity(alloc, room)?),
            Kind8::I32 => Typed::I32(Vec::with_capacity(alloc, room)?),
            Kind8::U32 => Typed::U32(Vec::with_capacity(alloc, room)?),
            Kind8::I64 => Typed::I64(Vec::with_capacity(alloc, room)?),
            Kind8::U64 => Typed::U64(Vec::with_capacity(alloc, room)?),
        };
        Ok(Column { typed })
    }

    /// The column of these numbers, which it takes over as they stand.
    pub fn of<T: Number>(numbers: Vec<T>) -> Column
        ensures value { result ≡ record { kind = T.kind; items = map T.value numbers.items } }
    {
        show_range(&numbers);
        let typed = T::typed(numbers);
        Column { typed }
    }

    /// The type of the numbers.
    pub fn kind(&self) -> Kind8
        ensures value { result ≡ self.now.kind }
    {
        match &self.typed {
            Typed::I8(_) => Kind8::I8,
            Typed::U8(_) => Kind8::U8,
            Typed::I16(_) => Kind8::I16,
            Typed::U16(_) => Kind8::U16,
            Typed::I32(_) => Kind8::I32,
            Typed::U32(_) => Kind8::U32,
            Typed::I64(_) => Kind8::I64,
            Typed::U64(_) => Kind8::U64,
        }
    }

    /// How many numbers there are.
    pub fn len(&self) -> u64
        ensures value { result ≡ length self.now.items }
        ensures within { AreInRange self.now }
    {
        each!(&self.typed, numbers => numbers.len() as u64)
    }

    /// The number at an index from 0 on. For many of them, `slice` or `numbers` is faster.
    pub fn get(&self, i: u64) -> i128
        requires { i < length self.now.items }
        ensures value { result ≡ slice_index_or self.now.items i (pos 0) }
        ensures within { fits self.now.kind result ≡ true }
    {
        each!(&self.typed, numbers => number_at(numbers, i))
    }

    /// Adds a number at the end. `Kind8::fits` is the test that it needs.
    pub fn push(&mut self, n: i128) -> Result<(), AllocError>
        requires { fits self.old.kind n ≡ true }
        ensures kind { self.new.kind ≡ self.old.kind }
        ensures ok { OnOk result (self.new.items ≡ self.old.items ++ n ∷ []) }
        ensures err { OnErr result (self.new ≡ self.old) }
    {
        push_typed(&mut self.typed, n)
    }

    /// The numbers in these bytes, the highest byte of each first: a block of a file.
    pub fn from_be(alloc: Global, kind: Kind8, bytes: &[u8]) -> Result<Column, AllocError>
        requires { IsBlock kind bytes.now }
        ensures value { IfOk result (λ c. c ≡ numbers_of kind bytes.now) }
    {
        let column = match kind {
            Kind8::I8 => Column::of(i8::from_block(alloc, bytes)?),
            Kind8::U8 => Column::of(u8::from_block(alloc, bytes)?),
            Kind8::I16 => Column::of(i16::from_block(alloc, bytes)?),
            Kind8::U16 => Column::of(u16::from_block(alloc, bytes)?),
            Kind8::I32 => Column::of(i32::from_block(alloc, bytes)?),
            Kind8::U32 => Column::of(u32::from_block(alloc, bytes)?),
            Kind8::I64 => Column::of(i64::from_block(alloc, bytes)?),
            Kind8::U64 => Column::of(u64::from_block(alloc, bytes)?),
        };
        Ok(column)
    }

    /// The bytes of the numbers, the highest byte of each first.
    pub fn to_be(&self, alloc: Global) -> Result<Vec<u8>, AllocError>
        ensures value { IfOk result (λ v. v.items ≡ block_of self.now) }
    {
        each!(&self.typed, numbers => Number::to_block(alloc, numbers))
    }

    /// All numbers, as a slice of their own type.
    pub fn slice(&self) -> Lent<'_>
        ensures value { lent_by result ≡ self.now }
        ensures within { AreInRange self.now }
    {
        match &self.typed {
            Typed::I8(numbers) => Lent::I8(numbers),
            Typed::U8(numbers) => Lent::U8(numbers),
            Typed::I16(numbers) => Lent::I16(numbers),
            Typed::U16(numbers) => Lent::U16(numbers),
            Typed::I32(numbers) => Lent::I32(numbers),
            Typed::U32(numbers) => Lent::U32(numbers),
            Typed::I64(numbers) => Lent::I64(numbers),
            Typed::U64(numbers) => Lent::U64(numbers),
        }
    }

    /// All numbers, where they are of this type.
    pub fn numbers<T: Number>(&self) -> Option<&[T]>
        ensures some { IsSome result ↔ (self.now.kind ≡ T.kind) }
        ensures value { IfSome result (λ s. map T.value s.now ≡ self.now.items) }
    {
        T::lent(self.slice())
    }
}

// Each number of a type lies in its range. Nothing is done: the loop is there for its proof.
fn show_range<T: Number>(numbers: &[T])
    ensures { AreInRange (record { kind = T.kind; items = map T.value numbers.now }) }
{
    for n in numbers {
        let _whole = n.whole();
    }
}

// The number at an index.
fn number_at<T: Number>(numbers: &[T], i: u64) -> i128
    requires { i < length numbers.now }
    ensures value { result ≡ slice_index_or (map T.value numbers.now) i (pos 0) }
    ensures within { fits T.kind result ≡ true }
{
    numbers[i as usize].whole()
}

// One number more.
fn push_to<T: Number>(numbers: &mut Vec<T>, n: i128) -> Result<(), AllocError>
    requires fits { fits T.kind n ≡ true }
    requires within { AreInRange (record { kind = T.kind; items = map T.value numbers.old.items }) }
    ensures ok { OnOk result (
        map T.value numbers.new.items ≡ map T.value numbers.old.items ++ n ∷ []) }
    ensures err { OnErr result (numbers.new.items ≡ numbers.old.items) }
    ensures within { AreInRange (record { kind = T.kind; items = map T.value numbers.new.items }) }
{
    let Some(x) = T::of_whole(n) else {
        unreachable!()
    };
    numbers.push(x)?;
    Ok(())
}

// The same, whatever the type is.
fn push_typed(typed: &mut Typed, n: i128) -> Result<(), AllocError>
    requires fits { fits (held_by typed.old).kind n ≡ true }
    requires within { AreInRange (held_by typed.old) }
    ensures kind { (held_by typed.new).kind ≡ (held_by typed.old).kind }
    ensures ok { OnOk result ((held_by typed.new).items ≡ (held_by typed.old).items ++ n ∷ []) }
    ensures err { OnErr result (held_by typed.new ≡ held_by typed.old) }
    ensures within { AreInRange (held_by typed.new) }
{
    each!(typed, numbers => push_to(numbers, n))
}
