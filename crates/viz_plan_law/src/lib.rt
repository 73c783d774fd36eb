//! What holds of the nodes of a network and of what is kept of them, before a plan is carried out.
//!
//! Contract: laws. What is told of a node is the information of the dataset that it gives; a part
//! that serves a request is cut to a part for it; what is found for a request among true entries is
//! a part that serves it; and the tasks of a plan fit what their nodes make. Definitions:
//! `specs/Told.antt`, `specs/Cutting.antt`, `specs/Kept.antt`, `specs/Ports.antt`,
//! `specs/Fitting.antt`.
#![tactic(auto)]

mod laws;

pub use laws::{kept_parts_serve, plans_fit, served_parts_are_cut, told_is_of_datasets};
