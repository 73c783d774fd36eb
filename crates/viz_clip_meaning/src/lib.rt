//! What a clipped volume means: the part of tetrahedra where a linear form is at least 0, as
//! tetrahedra.
//!
//! Contract: the laws of the definitions. With the corners of a cell in ascending order the rule
//! for prisms gives the rows of `specs/Rows.antt`. Definitions: `specs/Clip.antt`, whose table of
//! kept solids and rule for prisms are those of docs/FORMATS-OF-FILTERS.md, "Clipped volumes".
#![tactic(auto)]

mod laws;
mod vertex;

pub use laws::solids_split_by_rows;
pub use vertex::Vertex;
