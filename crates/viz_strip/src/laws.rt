//! What strips keep.

ghost use Rattle.viz_strip.specs.Kept.{StripsAreOne, StripsKeepTriangles};

/// The strips of triangles have their oriented triangles, each as often; none is continued by a
/// triangle of a later one; and a strip of one triangle shares no side, run in the opposite
/// direction, with a triangle of a later one.
pub fn strips_keep_triangles()
    ensures kept { StripsKeepTriangles }
{}

/// Triangles have one list of strips.
pub fn strips_are_one()
    ensures one { StripsAreOne }
{}
