//! Parameters of nodes, and their values.

use viz_base::Word;

/// A parameter of a node.
#[derive(Clone, Copy, PartialEq, Eq, Debug)]
pub enum Param {
    /// Which point array of a file is read, a text.
    Array,
    /// The decimals of a file's coordinates.
    Unit,
    /// The box of a crop: the least and the greatest index along x, y and z.
    Bounds,
    /// Every how many points a sample keeps along x, y and z.
    Rate,
    /// The least and the greatest value that are kept.
    Range,
    /// How far a mean reaches.
    Radius,
    /// What arith reckons, a text.
    Op,
    /// Whether all corners of a cell have to lie in the range or any, a text.
    Mode,
    /// The levels of a contour.
    Levels,
    /// The plane of a cut: its normal and its distance.
    Plane,
    /// Whether a file is written as text or in binary, a text.
    Style,
    /// The decimals that a file is written with.
    Digits,
    /// Whether the node's parts are given up after an update.
    Release,
    /// The version of the format that a file is written in: 3 is 3.0, and 5 is 5.1, which says the
    /// cells of a mesh by offsets.
    Version,
}

/// A value of a parameter.
#[derive(Clone, Copy, PartialEq, Eq, Debug)]
pub enum Value {
    /// The first `count` of the items are the numbers; the others are 0.
    Numbers { count: u8, items: [i64; 8] },
    /// A word.
    Text(Word),
}
