//! Laws of clipped volumes. A function that calls one may rest on it.

ghost use Rattle.viz_clip_law.specs.Facets.{FacetsLieInTwo};
ghost use Rattle.viz_clip_law.specs.Zeros.{CutsAreZeros};

/// Each facet of a clipped volume lies in two of its tetrahedra, or in one.
pub fn facets_lie_in_two()
    ensures facets { FacetsLieInTwo }
{}

/// The form is 0 at each cut of a clipped volume.
pub fn cuts_are_zeros()
    ensures zeros { CutsAreZeros }
{}
