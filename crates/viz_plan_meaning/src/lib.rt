//! What an update has to make, and what it finds kept: the plan of requests to a node of a network.
//!
//! Contract: laws of the plan. Level by level each of its tasks finds what it asks for, so
//! evaluated in that order they give true parts for all requests, or a fault of a node; and where
//! all came out, no fault is hidden. Definitions: `specs/Plan.antt`, `specs/Levels.antt`,
//! `specs/Networks.antt`, `specs/Known.antt`, `specs/Evaluation.antt`, `specs/Laws.antt`.
#![tactic(auto)]

mod evaluation;
mod laws;

pub use evaluation::{Evaluation, no_fault_hides, orders_produce, plans_produce};
pub use laws::plans_stand;
