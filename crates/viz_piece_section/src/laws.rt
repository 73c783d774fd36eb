//! Laws of the sections of an image in pieces. A function that calls one may rest on it.

ghost use Rattle.viz_piece_section.specs.Sections.{SectionsAreParts, SectionsShareOut};
ghost use Rattle.viz_piece_section.specs.Shifted.{SectionsHandOnShifted, SectionsShift};

use viz_meaning::tetrahedra_are_a_sheet;
use viz_piece_filters::{filters_chain, owns_hand_on};
use viz_piece_tets::{layers_share_out, tets_are_parts};

/// The section of a sheet with other leaves in the same order is the section with these leaves.
pub fn sections_of_shifted_sheets()
    ensures shift { SectionsShift }
    ensures hand_on { SectionsHandOnShifted }
{}

/// The block that a piece asks for gives a part of the whole's section, for every piece and number
/// of ghost levels.
pub fn sections_are_parts()
    ensures parts { SectionsAreParts }
{
    tets_are_parts();
    filters_chain();
    tetrahedra_are_a_sheet();
}

/// All pieces in turn own all cells of the sections.
pub fn sections_share_out()
    ensures all { SectionsShareOut }
{
    layers_share_out();
    owns_hand_on();
}
