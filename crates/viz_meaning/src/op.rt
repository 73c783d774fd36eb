//! What arithmetic of two images reckons.

/// What is reckoned of the numbers of two images at a point.
#[derive(Clone, Copy, PartialEq, Eq, Debug)]
pub enum Op {
    Add,
    Sub,
    Min,
    Max,
}
