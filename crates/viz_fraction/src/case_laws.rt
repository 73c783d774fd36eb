//! Laws of the table of cells. A function that calls one may rest on it.
ghost use Rattle.viz_fraction.specs.CaseLaws.{UsesCutEdges, HasWholeCells, FitsPlaces};
ghost use Rattle.viz_fraction.specs.CaseLaws.{HasNoCellOfOneSide, ComplementHasSameEnds};
ghost use Rattle.viz_fraction.specs.CaseLaws.{HasTwoWhereTwoInside, SharesDiagonals};
ghost use Rattle.viz_fraction.specs.CaseFacing.{FacesOutside, FacesAwayFromInside};

/// The cells of a section stand on just the edges that have one corner inside.
pub fn cells_cut_the_simplex()
    ensures edges { UsesCutEdges }
    ensures whole { HasWholeCells }
    ensures fits { FitsPlaces }
    ensures one_side { HasNoCellOfOneSide }
    ensures complement { ComplementHasSameEnds }
{}

/// The triangles of a positive tetrahedron face its outside corners, wherever on their edges the
/// ends lie.
pub fn triangles_face_outside()
    ensures outside { FacesOutside }
    ensures inside { FacesAwayFromInside }
{}

/// A quadrilateral is two triangles that share one side, which lies on no facet, and run through it
/// in opposite directions.
pub fn quadrilaterals_have_a_diagonal()
    ensures two { HasTwoWhereTwoInside }
    ensures diagonal { SharesDiagonals }
{}
