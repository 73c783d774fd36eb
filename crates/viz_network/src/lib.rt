//! Networks: nodes with their connections, parameters and stamps, and the edits that change them.
//!
//! Contract: an edit gives just the network of its definition, or is refused as the definition
//! refuses it and changes nothing; equal stamps are equal cones. Definitions: `specs/Edits.antt`,
//! `specs/Cone.antt`, `specs/EqualStamps.antt`; the rules are those of docs/FORMATS-OF-SCRIPTS.md,
//! "Edits".
#![tactic(auto)]

mod changes;
mod edit;
mod fault;
mod laws;
mod net;
mod node;
mod nodes;
mod part;
mod refusal;
mod stamps;
mod steps;
mod sweep;
mod way;

pub use edit::Edit;
pub use fault::{Cause, Fault, Stop};
pub use laws::{equal_stamps_are_equal_cones, networks_are_sound, stamps_stay};
pub use net::Net;
pub use node::Node;
pub use refusal::{ApplyStop, Refusal};
pub use stamps::Stamps;
pub use steps::Step;
pub use viz_kinds::{Kind, Op, Param, Settings, Value};
