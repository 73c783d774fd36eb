//! Cell sections of version 5.1 against texts by hand: tests alone.
#![tactic(auto)]

#[cfg(test)]
mod faults;
#[cfg(test)]
mod sections;
