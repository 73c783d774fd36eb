//! The geometry of a grid or polydata file: its points, and its cells by the indices of points.
//!
//! Contract: each reader gives just what the rules say, or the first fault. Definitions:
//! `specs/Points.antt`, `specs/Grid.antt` and `specs/Poly.antt`, and `specs/CellSections.antt` for
//! sections in both forms; the rules are those of docs/FORMATS-OF-FILES.md, "Grids and polydata".
#![tactic(auto)]

mod arrays;
mod cell_sections;
mod coordinates;
mod fields;
mod grids;
mod laws;
mod pieces;
mod poly;
mod types;

pub use coordinates::{FilePoints, points};
pub use grids::{GridFile, grid};
pub use laws::{
    geometry_is_definite, indices_are_those_of_points, points_have_three_coordinates,
    readers_decide_their_rules,
};
pub use pieces::{PolyPieces, split};
pub use poly::{PolyCells, PolyFile, polydata};
