//! What a node makes for a request of the parts at its ports, kind by kind: one task of a plan.
//!
//! Contract: `node_part` gives just what the calls for parts of viz_image_ops, viz_piece_tets,
//! viz_piece_section and viz_mesh_parts give by the node's parameters, or all of what its file is
//! read as; else the file's fault, or `TooWide` where a section of the part at its port is wide.
//! Two laws: true parts of what feeds a node, for what it asks for, are those that it takes, and
//! what it makes of them is a true part of what it makes. Definitions: `specs/Taken.antt`,
//! `specs/Made.antt`, `specs/Answering.antt`; `specs/Steps.antt` has words of private contracts.
#![tactic(auto)]

mod blocks;
mod files;
mod laws;
mod meshes;
mod node;
mod ports;
mod sections;

pub use laws::{asked_parts_are_taken, parts_made_answer};
pub use node::node_part;
