//! Laws of clipped volumes. A function that calls one may rest on it.

ghost use Rattle.viz_clip_meaning.specs.Rows.{SolidsSplitByRows};

/// With the corners of a cell in ascending order, the rule for prisms gives the same rows each
/// time.
pub fn solids_split_by_rows()
    ensures rows { SolidsSplitByRows }
{}
