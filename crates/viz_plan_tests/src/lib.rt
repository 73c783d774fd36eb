//! Plans of networks built by hand, against rows by hand: tests alone.
#![tactic(auto)]

#[cfg(test)]
mod table;
#[cfg(test)]
mod tests;
