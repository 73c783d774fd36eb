//! The section of a sheet by a linear form: triangles, lines and vertices between crossings.
//!
//! Contract: `section` gives just the section of `viz_meaning`: the cells of all cells in order, by
//! the names of their ends, the names ascending, and the crossing of each; `TooWide` comes only
//! where a number of the section is wide, and a section only where none is. `sections` gives that
//! of each sheet by each form. Definitions: those of `viz_meaning`; `specs/CellNames.antt` says
//! which names a section has in one cell, and `specs/Steps/` has the words of private contracts.
#![tactic(auto)]

mod crossings;
mod insides;
mod joined;
mod key;
mod key_list;
mod laws;
mod numbering;
mod piece;
mod pieces;
mod sectioning;
mod starts;

pub use laws::names_are_of_their_cell;
pub use sectioning::{section, sections};
