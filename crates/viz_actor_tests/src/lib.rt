//! Updates and audits over a hub, and scripts of two actors, by hand: tests alone.
#![tactic(auto)]

#[cfg(test)]
mod script;
#[cfg(test)]
mod updating;
