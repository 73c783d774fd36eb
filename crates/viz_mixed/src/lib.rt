//! Mixed cubes of an image, by words of 64 from one bit plane.
//!
//! Contract: `mixed` tells of each cube whether it has a corner with a number of at least the level
//! and a corner without, in the order of cubes. A level that the type of the numbers can't hold
//! mixes no cube. `plane_of` tells of each point whether it is inside, `corner_words` has the flags
//! of the corners of 64 cubes, and `mixed_of` tells which of these are mixed: so whoever visits
//! mixed cubes alone needs no list of all. Definitions: `specs/Mixed.antt`; `specs/Steps/` has the
//! words of private contracts.
#![tactic(auto)]

mod compared;
mod corners;
mod cubes;
mod mixing;
mod plane;

pub use corners::{corner_words, mixed_of};
pub use mixing::mixed;
pub use plane::plane_of;
