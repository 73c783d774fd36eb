//! Exact points and linear forms: crossings on edges, the cells of a section, and decimals.
//!
//! Contract: each call is its formula on whole numbers without bound, `TooWide` comes exactly where
//! a number of that formula exceeds 2^120 in magnitude, and `cells_of` gives the row of the table.
//! No memory is taken. Definitions: `specs/`; the rules are those of docs/FORMATS-OF-FILTERS.md,
//! "Exact points" and "Cases of a section".
#![tactic(auto)]

mod case_laws;
mod case_table;
mod crossings;
mod decimals;
mod divisors;
mod forms;
mod laws;
mod numbers;
mod places;
mod points;
mod products;
mod short_crossings;
mod small_crossings;
mod small_points;
mod steps;
mod words;

pub use case_laws::{
    cells_cut_the_simplex, quadrilaterals_have_a_diagonal, triangles_face_outside,
};
pub use case_table::{Case, cells_of};
pub use crossings::crossing;
pub use decimals::fixed;
pub use forms::{Form, is_inside, value};
pub use laws::{
    crossings_are_zeros, decimals_are_floors, divisors_are_greatest, lowest_terms_are_one,
    places_are_one,
};
pub use numbers::WIDEST;
pub use places::{place, within};
pub use points::{Point5, TooWide, point};
pub use small_crossings::small_crossing;
pub use small_points::{SmallPoint, small, whole};
