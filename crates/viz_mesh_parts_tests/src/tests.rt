//! What filters make of parts of a strip, by hand, and of pieces of meshes, by a plain program.

mod filters;
mod meshes;
mod pieces;
mod strip;
