//! Columns: lists of whole numbers of one of eight types, and their bytes in a file.
//!
//! Contract: a column is a kind and a list of numbers in the range of that kind, and its bytes are
//! those of its numbers, the highest byte first. Definitions: `specs/`; the types are those of the
//! VTK User's Guide, "Simple legacy formats".
#![tactic(auto)]

mod column;
mod kind;
mod laws;
mod lent;
mod number;
mod signed;
mod typed;
mod unsigned;
mod vectors;

pub use column::Column;
pub use kind::Kind8;
pub use laws::{blocks_are_read_again, blocks_are_written_again};
pub use lent::Lent;
pub use number::Number;
