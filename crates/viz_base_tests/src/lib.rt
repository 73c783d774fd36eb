//! Ports, outputs, kinds of node, requests and what a run tells, by hand: tests alone.
#![tactic(auto)]

#[cfg(test)]
mod base;
#[cfg(test)]
mod kinds;
#[cfg(test)]
mod requests;
#[cfg(test)]
mod told;
