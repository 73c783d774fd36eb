//! Evaluation from scratch: what a node of a network gives, and the text of its file, by the plain
//! definitions over all that lies upstream of it.
//!
//! Contract: `scratch` gives the dataset of the definitions or its first fault, and `file_text` the
//! text of the dataset or why there is none, of which `cell_count` and `point_count` tell what is
//! written; a node has one file. Definitions: those of `viz_node_meaning`, `specs/Written.antt`.
#![tactic(auto)]

mod counts;
mod datasets;
mod evaluation;
mod laws;
mod readers;
mod written;

pub use counts::{cell_count, point_count};
pub use evaluation::scratch;
pub use laws::files_are_one;
pub use written::{file_text, style_with, text_by_workers, text_of};
