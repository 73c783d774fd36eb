//! Filters of meshes on parts: from pieces of their inputs, pieces of what they make.
//!
//! Contract: each call gives, of true parts of its inputs for what the request asks them for, a
//! true part of what the filter makes; a section is TooWide exactly where a number in a cell of its
//! input is wide. Definitions: `specs/Answers.antt` and `specs/Divisions.antt` of
//! viz_piece_divisions; `specs/Steps.antt` has the words of private contracts.
#![tactic(auto)]

mod bounding;
mod copies;
mod joining;
mod levels;
mod matching;
mod parts;
mod sectioning;
mod selecting;

pub use parts::{append_parts, boundary_part, merge_part, section_part, select_part};
