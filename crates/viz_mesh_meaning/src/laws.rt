//! Laws of filters of meshes. A function that calls one may rest on it.

ghost use Rattle.viz_mesh_meaning.specs.FitLaws.{BoundaryFits, MergeFits, SelectionFits};
ghost use Rattle.viz_mesh_meaning.specs.Laws.{BoundaryHasFacets, BoundaryIsSheet, CellsMakeSheet};
ghost use Rattle.viz_mesh_meaning.specs.Laws.{KeptPointsMakeCells, MergeIsSheet};
ghost use Rattle.viz_mesh_meaning.specs.Laws.{ScalarTestIsWithin, SelectionIsCellByCell};
ghost use Rattle.viz_mesh_meaning.specs.Laws.{SelectionIsSheet};

/// Cells of names of a sheet are a sheet with the points that the names had, and there is but one.
pub fn cells_make_sheets()
    ensures sheet { CellsMakeSheet }
    ensures one { KeptPointsMakeCells }
{}

/// A selection goes cell by cell, by scalars that lie within the bounds, and is a sheet.
pub fn selections_are_cell_by_cell()
    ensures cells { SelectionIsCellByCell }
    ensures sheet { SelectionIsSheet }
    ensures within { ScalarTestIsWithin }
{}

/// The boundary of a sheet is a sheet of facets of its cells.
pub fn boundaries_have_facets()
    ensures sheet { BoundaryIsSheet }
    ensures facets { BoundaryHasFacets }
{}

/// A merge of sheets is a sheet.
pub fn merges_are_sheets()
    ensures sheet { MergeIsSheet }
{}

/// What a filter of meshes gives fits.
pub fn filters_fit()
    ensures selection { SelectionFits }
    ensures boundary { BoundaryFits }
    ensures merge { MergeFits }
{}
