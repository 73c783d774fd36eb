//! Clipped volumes: the part of tetrahedra where a linear form is at least 0, as tetrahedra that
//! fit together.
//!
//! Contract: `clip` gives just the clipped volume of `viz_clip_meaning`, and each refusal only
//! where its cause is there; `as_mesh` gives it as a sheet, each vertex a leaf by its rank.
//! Definitions: those of `viz_clip_meaning`; `specs/Steps/` has the words of private contracts.
#![tactic(auto)]

mod cell_test;
mod clipped;
mod clipping;
mod corners;
mod cut_points;
mod kept_points;
mod key_list;
mod numbers;
mod starts;
mod stop;
mod tets;
mod values;
mod vertex_list;

pub use clipped::{Clipped, as_mesh};
pub use clipping::clip;
pub use stop::ClipStop;
