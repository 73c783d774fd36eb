//! One level of tasks, done by any number of workers beside each other.
//!
//! Contract: `run_level` gives the items of the level's tasks in their order, whatever the number
//! of workers and however the tasks fell to them. Definition: `specs/Level.antt`. What workers hand
//! in, and how it is put in order, stands in `specs/Steps/`.
#![tactic(auto)]

mod gathering;
mod job;
mod level;
mod working;

pub use job::Job;
pub use level::run_level;
