//! Tetrahedra and sections of images for pieces, and mixed cubes: tests across crates.
#![tactic(auto)]

#[cfg(test)]
mod tests;
