//! Extents, grids, sheets, images, parts of them and kept parts, by hand: tests alone.
#![tactic(auto)]

#[cfg(test)]
mod cache;
#[cfg(test)]
mod datasets;
#[cfg(test)]
mod extent_parts;
#[cfg(test)]
mod extents;
#[cfg(test)]
mod kuhn;
#[cfg(test)]
mod parts;
#[cfg(test)]
mod sheets;
#[cfg(test)]
mod slabs;
