//! The fourteen kinds of node: their ports, their parameters, and the values that these may have.
//!
//! Contract: which ports and parameters a kind has, which values a parameter may have, and what a
//! node is set to are just those of one table. It stands in `specs/Kinds.antt`,
//! `specs/Values.antt` and
//! `specs/Settings.antt`, and as a text in docs/FORMATS-OF-FILTERS.md, "Kinds of node".
#![tactic(auto)]

mod assign;
mod kind;
mod param;
mod range;
mod settings;

pub use assign::release_with;
pub use kind::Kind;
pub use param::{Param, Value};
pub use range::{Range, allows, range_of};
pub use settings::{Op, Settings};
