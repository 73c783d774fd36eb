//! From true parts of what feeds a node, a true part of what it makes, kind by kind.
//!
//! Contract: laws. What the calls of viz_mesh_parts, viz_piece_tets and viz_piece_section say of
//! whatever mesh and division their inputs are parts of, and those of viz_image_ops of whatever
//! image, holds of what feeds the node, and so the part that they make is one of what the node
//! makes, as it is shared out (viz_node_division). Definitions: `specs/Answers.antt`, and of
//! filters of images `specs/ImageAnswers.antt`.
#![tactic(auto)]

mod laws;

pub use laws::{blocks_answer, image_filters_answer, mesh_filters_answer};
