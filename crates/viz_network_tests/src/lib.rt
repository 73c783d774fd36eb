//! Networks built by hand, edit by edit and batch by batch, against rows by hand: tests alone.
#![tactic(auto)]

#[cfg(test)]
mod batches;
#[cfg(test)]
mod tests;
