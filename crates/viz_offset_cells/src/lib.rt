//! The cells of a section of version 5.1, which are cut from one list of indices at offsets.
//!
//! Contract: `offset_section` gives just the cells of the rule, or the first fault. Definitions:
//! `specs/Offsets.antt` and `specs/Runs.antt`; the rules are those of docs/FORMATS-OF-FILES.md,
//! "Sections of version 5.1".
#![tactic(auto)]

mod blocks;
mod cuts;
mod kinds;
mod laws;
mod numbers;
mod offsets;
mod runs;
mod sections;
mod steps;
mod wide_cells;
mod wide_runs;

pub use laws::{
    indices_are_those_of_points, offset_sections_are_decided, offset_sections_are_definite,
};
pub use sections::offset_section;
