//! Filters of meshes and their sections, against meshes by hand: tests alone.
#![tactic(auto)]

#[cfg(test)]
mod boundary;
#[cfg(test)]
mod cells;
#[cfg(test)]
mod images;
#[cfg(test)]
mod merge;
#[cfg(test)]
mod select;
#[cfg(test)]
mod sheets;
#[cfg(test)]
mod shows;
#[cfg(test)]
mod tets;
