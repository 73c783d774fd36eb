//! The information pass: what is known of the nodes of a cone before their numbers are, by headers
//! alone.
//!
//! Contract: `inform` tells just the nodes of the cone, each with what the information rule of
//! viz_node_meaning gives, or the first information fault; `information_fault` tells that fault of
//! a node whose step is known. Definitions: `specs/Informed.antt`; `specs/Table.antt` says what a
//! table of a pass has, `specs/Above.antt` what marks tell, and `specs/Steps/` has the words of
//! private contracts.
#![tactic(auto)]

mod gathered;
mod headers;
mod informing;
mod marks;
mod places;
mod told;

pub use gathered::fault_in;
pub use headers::information_fault;
pub use informing::inform;
pub use marks::marks_above;
pub use places::place_of;
pub use told::Told;
