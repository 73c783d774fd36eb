//! How a column is kept: one vector of numbers of its type.

/// A vector of numbers of one of the eight types.
#[derive(Debug, Drop)]
pub enum Typed {
    I8(Vec<i8>),
    U8(Vec<u8>),
    I16(Vec<i16>),
    U16(Vec<u16>),
    I32(Vec<i32>),
    U32(Vec<u32>),
    I64(Vec<i64>),
    U64(Vec<u64>),
}
