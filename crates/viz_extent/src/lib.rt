//! Extents: blocks of grid points by six inclusive bounds, and the numbers of their points.
//!
//! Contract: `Extent::new` answers `None` exactly where the rule of an extent fails, `index_of` and
//! `place_of` are inverse, with x fastest, and parts of an extent have just the points that their
//! definitions say. Slabs and layers share out all planes and all layers across z, each once.
//! Definitions: `specs/Extent.antt`, `specs/Numbering.antt`, `specs/Parts.antt` and
//! `specs/Slabs.antt`; the rule is that of docs/FORMATS.md, "Extents".
#![tactic(auto)]

mod bounds;
mod laws;
mod parts;
mod slabs;

pub use bounds::Extent;
pub use laws::{rows_follow, x_is_fastest};
pub use slabs::shares_are_the_whole;
