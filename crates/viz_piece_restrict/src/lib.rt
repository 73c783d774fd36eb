//! Parts cut from parts: what is kept for one request serves another that it covers.
//!
//! Contract: `restrict` gives a part for the wanted request from a part for a kept one that covers
//! it: a block of a block, a piece with fewer ghost levels, or a piece of the only one, whose cells
//! are shared out in turn. `piece_of` grows a piece from its own cells by any number of ghost
//! levels. Definitions: `specs/Restricting.antt`, and `IsAnswer` of viz_parts.
#![tactic(auto)]

mod cell;
mod growth;
mod keeping;
mod marking;
mod mesh;
mod piece;
mod restriction;
mod taking;
mod trimming;
mod wholes;

pub use piece::piece_of;
pub use restriction::{restrict, restrict_shared};
pub use wholes::{whole_image, whole_mesh};
