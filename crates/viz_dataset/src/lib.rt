//! Datasets: images of whole numbers on a grid of points, and meshes.
//!
//! Contract: an image keeps the rule of an image, its points lie where the formula says, and
//! `restrict` gives the same numbers on a part of the extent.
//! Definitions: `specs/Images.antt`; the rule is that of docs/FORMATS-OF-FILES.md, "Images".
#![tactic(auto)]

mod dataset;
mod image;
mod points;
mod restricted;
mod rule;

pub use dataset::{Dataset, Info};
pub use image::Image;
pub use rule::{has_point, is_origin, is_spacing};
