//! Points of meshes merged: those at one position become one point.
//!
//! Contract: `merge` gives just the merge of the sheets: a leaf for each group of points at one
//! place, by its first point, and the cells of all sheets in turn without those that then repeat a
//! leaf. Definitions: those of `viz_mesh_meaning`; `specs/Steps/` has the words of private
//! contracts.
#![tactic(auto)]

mod cells;
mod groups;
mod keys;
mod leads;
mod merging;
mod numbers;

pub use merging::merge;
