//! Laws of the cells in one cell. A function that calls one may rest on it.
ghost use Rattle.viz_cells.specs.CellNames.{CutEdgesAreNamed, NamesAreOfTheirCell};

/// Each name of the cells in a cell is that of an edge between two names of the cell, exactly one
/// of them inside; and each such edge has its name there.
pub fn names_are_of_their_cell()
    ensures names { NamesAreOfTheirCell }
    ensures cut { CutEdgesAreNamed }
{}
