//! Laws of flags. A function that calls one may rest on it.

ghost use Rattle.viz_flags.specs.Flagged.{FlaggedAreEdges, FlagsAreRanks};

/// Flagged edges are the edges of the cells, ascending, and the flags before one are its rank.
pub fn flags_are_edges()
    ensures edges { FlaggedAreEdges }
    ensures ranks { FlagsAreRanks }
{}
