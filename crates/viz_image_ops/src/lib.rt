//! Filters of images, each on any part of its output.
//!
//! Contract: a call gives the part `out` of what its filter makes of the whole image, from inputs
//! that contain what `out` asks for, and refuses nothing but for want of memory.
//! Definitions: `viz_meaning`'s `specs/ImageFilters.antt` and `specs/WholeImages.antt`; the rules
//! are those of docs/FORMATS-OF-FILTERS.md, "What a node gives".
#![tactic(auto)]

mod arithmetic;
mod bounded;
mod cropping;
mod divisor;
mod laws;
mod means;
mod reckoning;
mod sampling;
mod smoothing;
mod sums;
mod thresholding;
mod window;

pub use arithmetic::arith;
pub use cropping::crop;
pub use laws::{
    images_are_wholes, parts_are_determined, samples_ask_within_the_whole,
    whole_thresholds_keep_each,
};
pub use sampling::sample;
pub use smoothing::smooth;
pub use thresholding::threshold;
pub use viz_meaning::Op;
