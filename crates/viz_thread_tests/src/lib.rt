//! Passes and tasks on threads: tests alone.
#![tactic(auto)]

#[cfg(test)]
mod passes;
#[cfg(test)]
mod workers;
