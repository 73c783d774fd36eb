//! All parts of a dataset put together: slabs of an image, pieces of a mesh with ghost cells.
//!
//! Contract: `stitch` of all parts of a dataset is the dataset: ghost cells are dropped, and points
//! of several pieces stand once. `stitch_shared` is the same of parts that others may own too, which
//! it reads where they lie. Definitions: `AreAllOf` of viz_parts.
#![tactic(auto)]

mod cell;
mod cells;
mod image;
mod joining;
mod mesh;
mod names;
mod places;
mod points;
mod ranks;
mod shared_sheet;
mod sheet;
mod stitching;
mod union;
mod walk;

pub use stitching::{stitch, stitch_shared};
