//! Parts of images and of meshes against a plain slow program, by the definition.

mod images;
mod meshes;
mod plain;
mod restricted;
mod sheets;
