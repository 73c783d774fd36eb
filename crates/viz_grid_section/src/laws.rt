//! Laws of the sections of grids. A function that calls one may rest on it.

ghost use Rattle.viz_grid_section.specs.EdgeLaws.{EdgesAreThoseOfCells, EdgesAscend, RankIsIndex};
ghost use Rattle.viz_grid_section.specs.ImageSection.{ContourIsSection, EdgesAreCut, NarrowByEdges};

/// The contour of an image by its cut edges is the section of the image's tetrahedra.
pub fn contours_are_sections()
    ensures section { ContourIsSection }
    ensures narrow { NarrowByEdges }
    ensures cut { EdgesAreCut }
{}

/// The edges of cells are the set of the cells' edges, ascending, and an edge's rank is its index.
pub fn edges_are_a_set()
    ensures ascending { EdgesAscend }
    ensures members { EdgesAreThoseOfCells }
    ensures rank { RankIsIndex }
{}
