//! Parts of nodes, counted by hand: of files, blocks of images, and pieces of meshes.

mod blocks;
mod nodes;
mod pieces;
mod sources;
mod taken;
