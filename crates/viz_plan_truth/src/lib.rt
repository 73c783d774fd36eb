//! What the parts that the tasks of a plan made tell of what its node gives.
//!
//! Contract: laws. Where all tasks of a plan of requests for all of what a node gives came out, no
//! number of a section is wide upstream of it, what it gives by the exact rule it gives from
//! scratch, and each part of a task is one that its node gives so; where a task failed, the node
//! gives no dataset. Definitions: `specs/Truth.antt`, `specs/Faults.antt`.
#![tactic(auto)]

mod laws;

pub use laws::{faults_show, plans_are_narrow};
