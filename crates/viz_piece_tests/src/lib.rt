//! Parts that are made of a whole, all of them, and put together again: tests across crates.
//!
//! Contract: `all_slabs` and `all_pieces` give all parts of an image and of a mesh, as `stitch`
//! takes them. The tests compare parts, and what they are put together, with those of a plain slow
//! program that goes by the definition.
#![tactic(auto)]

mod pieces;
mod slabs;

pub use pieces::all_pieces;
pub use slabs::all_slabs;

#[cfg(test)]
mod tests;
