//! Sheets: named points, and cells of 1 to 4 of them, kept by ranks.
//!
//! Contract: a sheet is seen as its names in ascending order, a point for each, and its cells by
//! the names of their points; each name is that of a cell. `compacted` drops the names that no cell
//! has, and leaves the cells, by their names, as they are. Definitions: `specs/Sheet.antt`.
#![tactic(auto)]

mod cell_ranks;
mod compaction;
mod keeping;
mod leaves;
mod marks;
mod mesh;
mod mixed;
mod places;
mod ranks;
mod rule;
mod sheet;
mod sheet_laws;

pub use compaction::{compacted, sheet_of};
pub use leaves::Leaves;
pub use mesh::Mesh;
pub use mixed::Mixed;
pub use places::Places;
pub use ranks::Ranks;
pub use rule::{are_cells, is_cell};
pub use sheet::Sheet;
pub use sheet_laws::{cells_determine_names, marked_names_compact, pairs_are_names};
