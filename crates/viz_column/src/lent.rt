//! The numbers of a column, lent.

/// All numbers of a column, as a slice of their own type.
#[derive(Clone, Copy, Debug)]
pub enum Lent<'a> {
    I8(&'a [i8]),
    U8(&'a [u8]),
    I16(&'a [i16]),
    U16(&'a [u16]),
    I32(&'a [i32]),
    U32(&'a [u32]),
    I64(&'a [i64]),
    U64(&'a [u64]),
}
