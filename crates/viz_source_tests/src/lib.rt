//! Sources and the lines of streams, by hand: tests alone.
#![tactic(auto)]

#[cfg(test)]
mod limits;
#[cfg(test)]
mod lines;
