//! Selection of cells by the scalars of their corners, and meshes joined.
//!
//! Contract: `select` gives just the selection of each sheet, cell after cell, and `append` the
//! sheets of all meshes in turn; `copied` makes the copy of a sheet that is only lent. Definitions:
//! those of `viz_mesh_meaning`; `specs/Steps.antt` has the words of private contracts.
#![tactic(auto)]

mod cell_tests;
mod copies;
mod joining;
mod keeping;
mod selection;
mod withins;

pub use copies::{copied, copied_sheets};
pub use joining::append;
pub use selection::select;
