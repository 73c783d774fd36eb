//! Bit planes: the truth values of a comparison at each number of a slice, 64 to a word.
//!
//! Contract: contracts see a plane as a list of truth values; bit i of a kernel's plane is its
//! comparison at number i, for slices of every length and each of eight types. Beside them stand
//! calls that use such truth values at once: what is selected stays, and every other number is 0.
//! Definitions: `specs/Planes.antt`.
#![tactic(auto)]

mod at_least;
mod bits;
mod keep_within;
mod lane;
mod plane;
mod signed;
mod unsigned;
mod within;

pub use at_least::{
    at_least_i8, at_least_i16, at_least_i32, at_least_i64, at_least_u8, at_least_u16, at_least_u32,
    at_least_u64,
};
pub use bits::Bits;
pub use keep_within::{
    keep_within_i8, keep_within_i16, keep_within_i32, keep_within_i64, keep_within_u8,
    keep_within_u16, keep_within_u32, keep_within_u64,
};
pub use within::{
    within_i8, within_i16, within_i32, within_i64, within_u8, within_u16, within_u32, within_u64,
};
