//! The numbers of an array, of which all are kept.

ghost use Rattle.std.specs.Prelude.{◌≡◌, ◌*◌, ◌<◌, ◌≤◌, ◌^◌, map, length};
ghost use Rattle.viz_column.specs.Kinds.{size_of};
ghost use Rattle.viz_lex.specs.Reading.{Reads};
ghost use Rattle.viz_lex.specs.Words.{line_end_at};
ghost use Rattle.viz_lex.specs.Readers.{times_at, bytes_at};
ghost use Rattle.viz_attr.specs.Reads.{ReadsUnlessMemory};
ghost use Rattle.viz_mesh_read.specs.Steps.{value_at, text_column_at, block_column_at, column_at};

use std::alloc::Global;
use viz_attr::AttrStop;
use viz_column::{Column, Kind8, Number};
use viz_counted_cells::{block, line_end};
use viz_lex::{FileFault, FileKind, Lexer};

/// One number.
#[tactic(auto, unfolding(crate::specs::Steps::value_at))]
fn value<T: Number>(lexer: &mut Lexer<'_>) -> Result<T, FileFault>
    ensures { Reads T.value result lexer.new (value_at T.kind lexer.old) }
{
    let (place, n) = lexer.due_number()?;
    match T::of_whole(n) {
        Some(x) => Ok(x),
        None => Err(FileFault {
            kind: FileKind::ValueRange,
            place,
        }),
    }
}

/// So many numbers in ASCII.
fn text_numbers<T: Number>(
    alloc: Global,
    lexer: &mut Lexer<'_>,
    count: u64,
) -> Result<Vec<T>, AttrStop>
    ensures { ReadsUnlessMemory (λ v. map T.value v.items) result lexer.new
        (times_at (value_at T.kind) count lexer.old) }
{
    let left = lexer.bytes().len() as u64 - lexer.place();
    let room = count.min(left / 2 + 1);
    let mut numbers = Vec::with_capacity(alloc, room as usize)?;
    for _ in 0..count {
        numbers.push(value::<T>(lexer)?)?;
    }
    Ok(numbers)
}

/// So many numbers in ASCII, as a column of this kind.
#[tactic(auto, unfolding(crate::specs::Steps::text_column_at))]
fn text_column(
    alloc: Global,
    lexer: &mut Lexer<'_>,
    kind: Kind8,
    count: u64,
) -> Result<Column, AttrStop>
    ensures { ReadsUnlessMemory (λ c. c) result lexer.new (text_column_at kind count lexer.old) }
{
    let column = match kind {
        Kind8::I8 => Column::of(text_numbers::<i8>(alloc, lexer, count)?),
        Kind8::U8 => Column::of(text_numbers::<u8>(alloc, lexer, count)?),
        Kind8::I16 => Column::of(text_numbers::<i16>(alloc, lexer, count)?),
        Kind8::U16 => Column::of(text_numbers::<u16>(alloc, lexer, count)?),
        Kind8::I32 => Column::of(text_numbers::<i32>(alloc, lexer, count)?),
        Kind8::U32 => Column::of(text_numbers::<u32>(alloc, lexer, count)?),
        Kind8::I64 => Column::of(text_numbers::<i64>(alloc, lexer, count)?),
        Kind8::U64 => Column::of(text_numbers::<u64>(alloc, lexer, count)?),
    };
    Ok(column)
}

/// So many numbers in BINARY.
#[tactic(auto, unfolding(crate::specs::Steps::block_column_at))]
fn block_column(
    alloc: Global,
    lexer: &mut Lexer<'_>,
    kind: Kind8,
    count: u64,
) -> Result<Column, AttrStop>
    requires { count < 2 ^ 33 }
    ensures { ReadsUnlessMemory (λ c. c) result lexer.new (block_column_at kind count lexer.old) }
{
    line_end(lexer)?;
    let bytes = block(lexer, count * kind.size() as u64)?;
    let column = Column::from_be(alloc, kind, bytes)?;
    Ok(column)
}

/// So many numbers of this kind.
#[tactic(auto, unfolding(crate::specs::Steps::column_at))]
pub(crate) fn column(
    alloc: Global,
    lexer: &mut Lexer<'_>,
    binary: bool,
    kind: Kind8,
    count: u64,
) -> Result<Column, AttrStop>
    requires { count < 2 ^ 33 }
    ensures { ReadsUnlessMemory (λ c. c) result lexer.new (column_at binary kind count lexer.old) }
{
    if binary {
        return block_column(alloc, lexer, kind, count);
    }
    text_column(alloc, lexer, kind, count)
}
