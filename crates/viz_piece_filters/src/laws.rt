//! Laws of filters on parts. A function that calls one may rest on it.

ghost use Rattle.viz_piece_filters.specs.Chains.{BoundariesChain, PartsHaveLevels, SectionsChain};
ghost use Rattle.viz_piece_filters.specs.Chains.{SelectionsChain, SelectionsHandOn, TrimmedChain};
ghost use Rattle.viz_piece_filters.specs.Filters.{BoundariesKeepParts, SectionsKeepParts};
ghost use Rattle.viz_piece_filters.specs.Filters.{SelectionsKeepParts, TrimmedKeepParts};
ghost use Rattle.viz_piece_filters.specs.Growth.{PartsGrow, PartsStart};
ghost use Rattle.viz_piece_filters.specs.Made.{MadeKeepParts};
ghost use Rattle.viz_piece_filters.specs.Owns.{OwnsHandOn, SharesAreAll};

/// What is made of a part, cell by cell, is a part of what is made of the whole.
pub fn made_keep_parts()
    ensures law { MadeKeepParts }
{}

/// The selection of a part is a part of the selection of the whole.
pub fn selections_keep_parts()
    ensures law { SelectionsKeepParts }
{}

/// The section of a part is a part of the section of the whole.
pub fn sections_keep_parts()
    ensures law { SectionsKeepParts }
{}

/// The boundary of a part with one ghost level more is a part of the boundary of the whole.
pub fn boundaries_keep_parts()
    ensures law { BoundariesKeepParts }
{}

/// A part without its last ghost levels is one.
pub fn trimmed_keep_parts()
    ensures law { TrimmedKeepParts }
{}

/// What each filter asks of a part and of the whole holds of what it makes, so that the next one
/// can follow.
pub fn filters_chain()
    ensures selection { SelectionsChain }
    ensures boundary { BoundariesChain }
    ensures trimmed { TrimmedChain }
    ensures section { SectionsChain }
    ensures handed_on { SelectionsHandOn }
    ensures levels { PartsHaveLevels }
{}

/// Own positions of all pieces in turn are all positions, of a sheet that is shared out in turn,
/// and of what a filter makes where they are of its input.
pub fn owns_hand_on()
    ensures shares { SharesAreAll }
    ensures made { OwnsHandOn }
{}

/// Own cells alone are a part without ghosts, and a part grows by the cells that meet its own.
pub fn parts_grow()
    ensures start { PartsStart }
    ensures grow { PartsGrow }
{}
