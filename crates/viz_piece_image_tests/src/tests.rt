//! Pieces of images by hand, and mixed cubes and pieces against plain slow programs.

mod compared;
mod images;
mod mixed;
mod pieces;
mod rows;
mod tets;
mod wide;
