//! A section of version 5.1.

ghost use Rattle.std.specs.Prelude.{◌≡◌, ◌<◌, ◌^◌};
ghost use Rattle.viz_attr.specs.Reads.{ReadsUnlessMemory};
ghost use Rattle.viz_counted_cells.specs.Geometry.{MeetsBy};
ghost use Rattle.viz_counted_cells.specs.Sections.{section_of};
ghost use Rattle.viz_offset_cells.specs.Offsets.{has_cuts, offset_numbers};
ghost use Rattle.viz_offset_cells.specs.Steps.{cut_cells_at, any_cells_at, offset_section_at};

use crate::offsets::offsets;
use crate::runs::connectivity;
use std::alloc::Global;
use viz_attr::AttrStop;
use viz_counted_cells::{CellArrays, CellNumbers, CellSection, count, section_size};
use viz_lex::Lexer;

/// The cells of so many offsets and so many indices.
#[tactic(auto, unfolding(crate::specs::Steps::cut_cells_at))]
fn cut_cells(
    alloc: Global,
    lexer: &mut Lexer<'_>,
    binary: bool,
    points: u64,
    most: u64,
    indices: u64,
) -> Result<CellSection, AttrStop>
    requires few { points < 2 ^ 31 }
    requires within { indices < 2 ^ 31 }
    requires offsets { most < 2 ^ 31 }
    requires none { most ≡ 0 → indices ≡ 0 }
    ensures { ReadsUnlessMemory section_of result lexer.new
        (cut_cells_at binary points most indices lexer.old) }
{
    let cuts = offsets(alloc, lexer, binary, most, indices)?;
    let numbers = connectivity(alloc, lexer, binary, points, &cuts, indices)?;
    Ok(CellSection {
        count: cuts.cells(),
        numbers,
    })
}

/// Whether offsets and indices stand there: where there are none they may be left out together.
fn has_cuts(lexer: &Lexer<'_>, most: u64) -> bool
    ensures { result ≡ has_cuts most lexer.now }
{
    most != 0 || lexer.is_next(b"OFFSETS")
}

/// The cells, and none where offsets and indices are left out.
#[tactic(auto, unfolding(crate::specs::Steps::any_cells_at))]
fn any_cells(
    alloc: Global,
    lexer: &mut Lexer<'_>,
    binary: bool,
    points: u64,
    most: u64,
    indices: u64,
) -> Result<CellSection, AttrStop>
    requires few { points < 2 ^ 31 }
    requires within { indices < 2 ^ 31 }
    requires offsets { most < 2 ^ 31 }
    requires none { most ≡ 0 → indices ≡ 0 }
    ensures { ReadsUnlessMemory section_of result lexer.new
        (any_cells_at binary points most indices lexer.old) }
{
    if has_cuts(lexer, most) {
        return cut_cells(alloc, lexer, binary, points, most, indices);
    }
    Ok(CellSection {
        count: 0,
        numbers: CellNumbers::of(CellArrays::Mixed(Vec::new(alloc))),
    })
}

#[tactic(auto, unfolding(crate::specs::Steps::offset_section_at))]
fn all_cells(
    alloc: Global,
    lexer: &mut Lexer<'_>,
    binary: bool,
    points: u64,
) -> Result<CellSection, AttrStop>
    requires { points < 2 ^ 31 }
    ensures { ReadsUnlessMemory section_of result lexer.new
        (offset_section_at binary points lexer.old) }
{
    let most = count(lexer)?;
    let indices = section_size(lexer, most)?;
    any_cells(alloc, lexer, binary, points, most, indices)
}

/// A section of cells of version 5.1 in a file of so many points: called behind its keyword, CELLS
/// or one of the four of polydata.
pub fn offset_section(
    alloc: Global,
    lexer: &mut Lexer<'_>,
    binary: bool,
    points: u64,
) -> Result<CellSection, AttrStop>
    requires { points < 2 ^ 31 }
    ensures meets { MeetsBy section_of (offset_numbers binary points) result lexer.old lexer.new }
    ensures exact { ReadsUnlessMemory section_of result lexer.new
        (offset_section_at binary points lexer.old) }
{
    all_cells(alloc, lexer, binary, points)
}
