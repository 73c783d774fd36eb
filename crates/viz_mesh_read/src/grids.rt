//! The geometry of an unstructured grid.

ghost use Rattle.viz_attr.specs.Reads.{ReadsUnlessMemory};
ghost use Rattle.viz_counted_cells.specs.Geometry.{MeetsBy};
ghost use Rattle.viz_mesh_read.specs.Grid.{grid_of, grid_numbers};
ghost use Rattle.viz_mesh_read.specs.GridSteps.{grid_at};

use crate::cell_sections::cell_section;
use crate::coordinates::{FilePoints, all_points};
use crate::fields::fields;
use crate::types::types;
use std::alloc::Global;
use viz_attr::AttrStop;
use viz_counted_cells::CellSection;
use viz_lex::Lexer;

/// The geometry of a grid: its points, and its cells, each of whose types has as many points.
#[derive(Debug, Drop)]
pub struct GridFile {
    pub points: FilePoints,
    pub cells: CellSection,
}

#[tactic(auto, unfolding(crate::specs::GridSteps::grid_at))]
fn whole_grid(
    alloc: Global,
    lexer: &mut Lexer<'_>,
    binary: bool,
    later: bool,
) -> Result<GridFile, AttrStop>
    ensures { ReadsUnlessMemory grid_of result lexer.new (grid_at binary later lexer.old) }
{
    fields(lexer, binary)?;
    let points = all_points(alloc, lexer, binary)?;
    fields(lexer, binary)?;
    lexer.due_keyword(b"CELLS")?;
    let cells = cell_section(alloc, lexer, later, binary, points.count)?;
    fields(lexer, binary)?;
    types(lexer, binary, &cells)?;
    Ok(GridFile { points, cells })
}

/// The geometry of a grid: called behind the words DATASET UNSTRUCTURED_GRID. `later` says that the
/// file has version 5.1 or above, where the cells are cut at offsets.
pub fn grid(
    alloc: Global,
    lexer: &mut Lexer<'_>,
    binary: bool,
    later: bool,
) -> Result<GridFile, AttrStop>
    ensures meets { MeetsBy grid_of (grid_numbers binary later) result lexer.old lexer.new }
    ensures exact { ReadsUnlessMemory grid_of result lexer.new (grid_at binary later lexer.old) }
{
    whole_grid(alloc, lexer, binary, later)
}
