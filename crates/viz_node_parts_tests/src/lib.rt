//! What each kind of node makes of parts, by hand: tests alone.
#![tactic(auto)]

#[cfg(test)]
mod tests;
