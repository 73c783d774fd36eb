//! Updates by plan beside evaluation from scratch, by hand: tests alone.
#![tactic(auto)]

#[cfg(test)]
mod counts;
#[cfg(test)]
mod edits;
#[cfg(test)]
mod faults;
#[cfg(test)]
mod kept;
#[cfg(test)]
mod kinds;
#[cfg(test)]
mod meeting;
#[cfg(test)]
mod story;
#[cfg(test)]
mod updates;
