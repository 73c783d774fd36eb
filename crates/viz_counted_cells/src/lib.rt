//! The cells of a section as counted runs: the count of a cell, then its indices, then the next.
//!
//! Contract: `section` gives just the cells of the rule, or the first fault. Definitions:
//! `specs/Sections.antt`, and `specs/Numbered.antt` with the arrays that keep their numbers; the
//! rules are those of docs/FORMATS-OF-FILES.md, "Grids and polydata".
#![tactic(auto)]

mod blocks;
mod bytes;
mod cell_numbers;
mod counts;
mod fixed_cells;
mod laws;
mod numbers;
mod sections;

pub use bytes::{block, line_end};
pub use cell_numbers::{CellArrays, CellNumbers, behind_first, first_count, first_indices};
pub use counts::{count, section_size};
pub use fixed_cells::{FixedCell, flattened};
pub use laws::{
    counted_indices_are_those_of_points, counted_sections_are_decided,
    counted_sections_are_definite,
};
pub use numbers::{is_index, section_number, section_start};
pub use sections::{CellSection, section};
