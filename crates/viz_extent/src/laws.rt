//! Laws of the numbers of an extent's points. A function that calls one may rest on it.
ghost use Rattle.viz_extent.specs.Numbering.{BeginsAtLowestCorner, StepsAlongX, StepsAlongY};
ghost use Rattle.viz_extent.specs.Numbering.{StepsAlongZ, RowsFollow, PlanesFollow};
ghost use Rattle.viz_extent.specs.Numbering.{EndsAtHighestCorner};

/// The numbers begin with 0 at the lowest corner, and go with x fastest, then y, then z.
pub fn x_is_fastest()
    ensures first { BeginsAtLowestCorner }
    ensures along_x { StepsAlongX }
    ensures along_y { StepsAlongY }
    ensures along_z { StepsAlongZ }
{}

/// No number is left out: row follows row and plane follows plane, up to the highest corner.
pub fn rows_follow()
    ensures rows { RowsFollow }
    ensures planes { PlanesFollow }
    ensures last { EndsAtHighestCorner }
{}
