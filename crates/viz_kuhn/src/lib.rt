//! Kuhn's subdivision: each cube between the points of an extent as six tetrahedra.
//!
//! Contract: `tet` gives one tetrahedron of the list of all, by the numbers of its points, and each
//! is positively oriented and goes along a path of the three axes.
//! Definitions: `specs/Kuhn.antt` and `specs/Cubes.antt`; the table is that of
//! docs/FORMATS-OF-FILTERS.md, "Kuhn's subdivision".
#![tactic(auto)]

mod laws;
mod tetrahedra;

pub use laws::{
    corners_are_the_cubes, cubes_go_x_fastest, edges_are_steps, list_is_in_order, orders_are_six,
    paths_are_followed, sixths_are_positive,
};
pub use tetrahedra::{cubes, even, tet};
