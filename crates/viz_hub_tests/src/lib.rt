//! A history of one pass, passes of a hub, and what they publish of updates: tests across crates.
//!
//! Contract: `publish_update` pins, makes an update of a node by its plan from the parts of the
//! pin, and publishes what its tasks made. The tests look at what a later pin hands out.
#![tactic(auto)]

mod publishing;

pub use publishing::publish_update;

#[cfg(test)]
mod one_pass;
#[cfg(test)]
mod passes;
#[cfg(test)]
mod sending;
#[cfg(test)]
mod tests;
