//! What filters mean: the section of a sheet by a linear form, by the names of its points, and
//! filters of images, as functions of the whole image.
//!
//! Contract: the laws of the definitions. The names of a section ascend and are just those of its
//! cells, and each has a point; a section of a sheet is a sheet, fits if the sheet does, and has a
//! wide number just where some cell has one. `WorkStop` is the answer of a section, or of a
//! contour, that has no result. Definitions: `specs/Section.antt`, `specs/Narrow.antt`
//! and `specs/ImageFilters.antt`; the table of cells is that of docs/FORMATS-OF-FILTERS.md, "Cases
//! of a section".
#![tactic(auto)]

mod laws;
mod op;
mod stop;

pub use laws::{
    edges_have_two_ends, section_names_are_a_set, sections_are_sheets, sections_are_wide_in_a_cell,
    tetrahedra_are_a_sheet,
};
pub use op::Op;
pub use stop::WorkStop;
