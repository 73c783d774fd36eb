//! Laws of sections. A function that calls one may rest on it.

ghost use Rattle.viz_meaning.specs.Laws.{EdgeHasOneName, NamesAreDetermined, PairsHaveEnds};
ghost use Rattle.viz_meaning.specs.Laws.{SectionNamesAreUsed, SectionNamesAscend};
ghost use Rattle.viz_meaning.specs.Laws.{SectionNamesHavePoints};
ghost use Rattle.viz_meaning.specs.SectionLaws.{NarrowCellByCell, SectionFits};
ghost use Rattle.viz_meaning.specs.SectionLaws.{SectionHasNextNames, SectionIsSheet};
ghost use Rattle.viz_meaning.specs.TetrahedraLaws.{TetrahedraAreSheet, TetrahedraFit};
ghost use Rattle.viz_meaning.specs.TetrahedraLaws.{TetrahedraHaveLeaves};

use viz_kuhn::{corners_are_the_cubes, edges_are_steps};

/// The names of a section are the set of its cells' names, ascending, and each has a point.
pub fn section_names_are_a_set()
    ensures ascend { SectionNamesAscend }
    ensures used { SectionNamesAreUsed }
    ensures points { SectionNamesHavePoints }
    ensures determined { NamesAreDetermined }
{}

/// An edge has one name, whichever end comes first, and a name of an edge has both its ends.
pub fn edges_have_two_ends()
    ensures one { EdgeHasOneName }
    ensures both { PairsHaveEnds }
{}

/// A section of a sheet whose names have one length is a sheet, its names have twice as many
/// leaves, and it fits if the sheet does.
pub fn sections_are_sheets()
    ensures sheet { SectionIsSheet }
    ensures names { SectionHasNextNames }
    ensures fits { SectionFits }
{}

/// A number of a section is wide just where one is in some cell.
pub fn sections_are_wide_in_a_cell()
    ensures cells { NarrowCellByCell }
{}

/// The tetrahedra of an image are a sheet of names of one leaf, and it fits.
pub fn tetrahedra_are_a_sheet()
    ensures sheet { TetrahedraAreSheet }
    ensures names { TetrahedraHaveLeaves }
    ensures fits { TetrahedraFit }
{
    corners_are_the_cubes();
    edges_are_steps();
}
