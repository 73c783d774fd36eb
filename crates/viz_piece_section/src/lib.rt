//! Sections of an image for a piece, straight from the planes that the piece asks for.
//!
//! Contract: from a true block of these planes, `section_image` gives a true part of the sections
//! of the whole image for the piece: the cells in its own tetrahedra and in those of its ghost
//! layers, by the names that they have in the whole, each with the level of its layer. `TooWide`
//! comes only where a number of a section of the block is wide, and a part only where none is.
//! Definitions: `specs/`, and those of viz_parts and viz_piece_filters; `specs/Steps/` has the
//! words of private contracts.
#![tactic(auto)]

mod cell_levels;
mod laws;
mod pieces;
mod slab;

pub use laws::{sections_are_parts, sections_of_shifted_sheets, sections_share_out};
pub use pieces::section_image;
