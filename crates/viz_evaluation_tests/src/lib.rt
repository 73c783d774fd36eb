//! Networks evaluated from scratch, and updates and audits of them, by hand: tests alone.
#![tactic(auto)]

#[cfg(test)]
mod account;
#[cfg(test)]
mod scratch;
#[cfg(test)]
mod story;
