//! Words, numbers, lines and attribute parts of texts, counted by hand: tests alone.
#![tactic(auto)]

#[cfg(test)]
mod attribute_faults;
#[cfg(test)]
mod attribute_texts;
#[cfg(test)]
mod attributes;
#[cfg(test)]
mod decimals;
#[cfg(test)]
mod passed;
#[cfg(test)]
mod steps;
#[cfg(test)]
mod words;
