//! What holds of each mesh that a node gives in whole numbers without bound.
//!
//! Contract: laws. Each sheet has names of one level, and fits. Definitions: `specs/Given.antt`.
#![tactic(auto)]

mod laws;

pub use laws::given_meshes_are_leveled;
