//! Writing legacy files: the text of an image, and what its writer shares with that of meshes.
//!
//! Contract: `write_image` gives the text of the definition, or the refusal that it names; what a
//! mesh is written as is `viz_mesh_write`. Definitions: `specs/ImageText.antt`,
//! `specs/Version.antt`; the rule is that of docs/FORMATS-OF-OUTPUT.md, "Written files".
#![tactic(auto)]

mod counts;
mod digits;
mod image;
mod image_heads;
mod left;
mod rows;
mod stop;
mod style;

pub use counts::counts_fit;
pub use image::write_image;
pub use image_heads::put_version;
pub use left::{Block, left_byte, left_count, left_int, left_long, left_number};
pub use stop::WriteStop;
pub use style::Style;
