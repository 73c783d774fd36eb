//! What one node of a network makes of what feeds its ports: of what is known of the datasets
//! there, and of the datasets themselves.
//!
//! Contract: `own_information` and `own_dataset` give just what the rules of `viz_node_meaning`
//! say, or the node's own fault; `file_dataset` and the calls for parameters, which nodes on parts
//! share, what the same rules say of a file and of each parameter. `specs/Makes.antt` leaves want
//! of memory free, `specs/Places.antt` says what a table has of a port, and `specs/Steps/` has the
//! words of private contracts.
#![tactic(auto)]

mod contours;
mod datasets;
mod files;
mod filters;
mod information;
mod joining;
mod meshes;
mod parameters;
mod ports;
mod rules;
mod section;
mod stop;

pub use datasets::{Held, own_dataset};
pub use files::file_dataset;
pub use parameters::{contour_forms, op_with, plane_form, radius_with, rate_with};
pub use rules::own_information;
pub use stop::OwnStop;
