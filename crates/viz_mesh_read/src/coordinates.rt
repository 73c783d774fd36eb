//! The points of a file.

ghost use Rattle.std.specs.Prelude.{◌≡◌, ◌<◌, ◌^◌, IfOk};
ghost use Rattle.viz_attr.specs.Values.{kind_of};
ghost use Rattle.viz_attr.specs.Reads.{ReadsUnlessMemory};
ghost use Rattle.viz_counted_cells.specs.Geometry.{MeetsBy};
ghost use Rattle.viz_mesh_read.specs.Points.{points};
ghost use Rattle.viz_mesh_read.specs.Steps.{points_at};

use crate::arrays::column;
use std::alloc::Global;
use viz_attr::{AttrStop, Stored, type_word};
use viz_column::{Column, Kind8};
use viz_counted_cells::count;
use viz_lex::{FileFault, FileKind, Lexer};

/// The points of a file as they stand in it: three coordinates of each, one after the other.
#[derive(Debug, Drop)]
pub struct FilePoints {
    /// How many points there are.
    pub count: u64,
    /// x, y and z of the first, then of the second and so on.
    pub coordinates: Column,
}

fn kind_of(stored: Stored) -> Kind8
    ensures { result ≡ kind_of stored }
{
    match stored {
        Stored::Whole(kind) => kind,
        Stored::Float | Stored::Double => Kind8::U8,
    }
}

#[tactic(auto, unfolding(crate::specs::Steps::points_at))]
pub(crate) fn all_points(
    alloc: Global,
    lexer: &mut Lexer<'_>,
    binary: bool,
) -> Result<FilePoints, AttrStop>
    ensures exact { ReadsUnlessMemory (λ p. p) result lexer.new (points_at binary lexer.old) }
    ensures few { IfOk result (λ p. p.count < 2 ^ 31) }
{
    lexer.due_keyword(b"POINTS")?;
    let count = count(lexer)?;
    let stored = type_word(lexer, true)?;
    let coordinates = column(alloc, lexer, binary, kind_of(stored), 3 * count)?;
    lexer.any_metadata()?;
    Ok(FilePoints { count, coordinates })
}

/// POINTS n type, three whole numbers for each point, and METADATA, which may stand behind them:
/// called where the word POINTS is due.
pub fn points(alloc: Global, lexer: &mut Lexer<'_>, binary: bool) -> Result<FilePoints, AttrStop>
    ensures meets { MeetsBy (λ p. p) (points binary) result lexer.old lexer.new }
    ensures few { IfOk result (λ p. p.count < 2 ^ 31) }
{
    all_points(alloc, lexer, binary)
}
