//! What filters of meshes mean: selection, joining, boundary and merging, by the names of points.
//!
//! Contract: the laws of the definitions. What a selection and a boundary give of sheets are sheets
//! again, whose points are those that the names had; a merge of sheets that have at most 2^32
//! places is a sheet. Definitions: `specs/Cells.antt`, `specs/Select.antt`,
//! `specs/Append.antt`, `specs/Facets.antt` and `specs/Merge.antt`; `specs/FitLaws.antt` says that
//! sections of what a filter gives have names.
#![tactic(auto)]

mod laws;

pub use laws::{
    boundaries_have_facets, cells_make_sheets, filters_fit, merges_are_sheets,
    selections_are_cell_by_cell,
};
