//! Clipped volumes against some by hand: tests alone.
#![tactic(auto)]

#[cfg(test)]
mod clips;
#[cfg(test)]
mod sheets;
