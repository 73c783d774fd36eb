//! Laws over readers and writers of files together: what is written is read again.
//!
//! Contract: the text of an image is read as that image, and that of a mesh as the mesh of its
//! written points and cells, of version 3.0 and of version 5.1, in ASCII and in BINARY alike, and
//! as nothing else. Definitions: `specs/RoundTrip.antt` for images and `specs/MeshTrip.antt` for
//! meshes, over those of `viz_image_write` and `viz_mesh_write`, which say what is written, and of
//! `viz_legacy_read`, which say what is read.
#![tactic(auto)]

mod images;
mod meshes;

pub use images::{moved_points_stay, nothing_else_is_read, written_images_are_read_again};
pub use meshes::{no_other_mesh_is_read, written_meshes_are_read_again, written_types_are_wanted};
