//! Laws of sheets, of their names and of kept cells. A function that calls one may rest on it.

ghost use Rattle.viz_sheet.specs.Kept.{KeptCellsAreCells, MarksCompact};
ghost use Rattle.viz_sheet.specs.PairNames.{PairsAscendAsNames, PairsCompareAsNames};
ghost use Rattle.viz_sheet.specs.Sheet.{CellsDetermineNames};

/// Sheets with equal cells have equal names.
pub fn cells_determine_names()
    ensures names { CellsDetermineNames }
{}

/// Cells with their own names alone are a sheet with the same cells by names. Some cells of a
/// sheet are such cells.
pub fn marked_names_compact()
    ensures marked { MarksCompact }
    ensures some { KeptCellsAreCells }
{}

/// Pairs of ranks compare and ascend as the names of the next level that they make.
pub fn pairs_are_names()
    ensures compare { PairsCompareAsNames }
    ensures ascend { PairsAscendAsNames }
{}
