//! Sessions over files in memory, by hand: tests alone.
#![tactic(auto)]

#[cfg(test)]
mod tests;
