//! The walk upstream: the plan of requests to a node of a network, and the entries that it uses,
//! by going into each need once.
//!
//! Contract: `plan_to` gives just the plan and the used entries of the definitions of
//! `viz_plan_meaning`, for whatever tells of each node what it makes for a request, what it asks
//! for, and what is kept of it. The words of private contracts are those of `specs/`.
#![tactic(auto)]

mod levels;
mod plan;
mod tasks;
mod thin;
mod walk;

pub use levels::{Levelled, by_levels, with_levels};
pub use plan::{Plan, plan_to};
pub use tasks::{Tasks, task_steps};
pub use walk::{Asking, Need};
