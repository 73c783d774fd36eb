//! Fractions, columns and bit planes, against numbers by hand: tests alone.
#![tactic(auto)]

#[cfg(test)]
mod borders;
#[cfg(test)]
mod cases;
#[cfg(test)]
mod columns;
#[cfg(test)]
mod lanes;
#[cfg(test)]
mod points;
