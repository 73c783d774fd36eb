//! The cells of a section, in the form of the file's version.

ghost use Rattle.std.specs.Prelude.{◌<◌, ◌^◌};
ghost use Rattle.viz_attr.specs.Reads.{ReadsUnlessMemory};
ghost use Rattle.viz_counted_cells.specs.Sections.{section_of};
ghost use Rattle.viz_mesh_read.specs.Steps.{cell_section_at};

use std::alloc::Global;
use viz_attr::AttrStop;
use viz_counted_cells::{CellSection, section};
use viz_lex::Lexer;
use viz_offset_cells::offset_section;

/// A section behind its keyword, in a file of so many points: counted cells, or in a file of version
/// 5.1 or above cells cut at offsets.
#[tactic(auto, unfolding(crate::specs::Steps::cell_section_at))]
pub(crate) fn cell_section(
    alloc: Global,
    lexer: &mut Lexer<'_>,
    later: bool,
    binary: bool,
    points: u64,
) -> Result<CellSection, AttrStop>
    requires { points < 2 ^ 31 }
    ensures { ReadsUnlessMemory section_of result lexer.new
        (cell_section_at later binary points lexer.old) }
{
    if later {
        return offset_section(alloc, lexer, binary, points);
    }
    section(alloc, lexer, binary, points)
}
