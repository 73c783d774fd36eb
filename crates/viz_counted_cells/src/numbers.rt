//! The numbers of a section: words in ASCII, and 32 bits each in BINARY.

ghost use Rattle.std.specs.Prelude.{◌≡◌, ◌<◌, ◌≤◌, ◌^◌, ℤ, length, IfOk};
ghost use Rattle.viz_column.specs.declared.kind.Kind8.TheVariants.{I32};
ghost use Rattle.viz_column.specs.Bytes.{number_in};
ghost use Rattle.viz_lex.specs.Reading.{Reads};
ghost use Rattle.viz_lex.specs.Steps.{due_number};
ghost use Rattle.viz_counted_cells.specs.Sections.{is_index, is_cell_count};
ghost use Rattle.viz_counted_cells.specs.Steps.{block_number_at, section_number_at, section_start_at};
ghost use Rattle.viz_counted_cells.specs.Steps.{index_at};

use crate::bytes::{block, line_end};
use byteorder::{BigEndian, ByteOrder};
use viz_lex::{FileFault, FileKind, Lexer};

#[inline(always)]
fn whole_in(bytes: &[u8]) -> i128
    requires { length bytes.now ≡ 4 }
    ensures { result ≡ number_in I32 bytes.now }
{
    i128::from(BigEndian::read_i32(bytes))
}

/// A number in BINARY: its place and the number.
#[tactic(auto, unfolding(crate::specs::Steps::block_number_at))]
#[inline(always)]
fn block_number(lexer: &mut Lexer<'_>) -> Result<(u64, i128), FileFault>
    ensures { Reads (λ n. n) result lexer.new (block_number_at lexer.old) }
{
    let place = lexer.place();
    let bytes = block(lexer, 4)?;
    Ok((place, whole_in(bytes)))
}

/// A number in ASCII: its place and the number.
#[inline(never)]
fn word_number(lexer: &mut Lexer<'_>) -> Result<(u64, i128), FileFault>
    ensures { Reads (λ n. n) result lexer.new (due_number lexer.old) }
{
    lexer.due_number()
}

/// The next number, a word in ASCII and 32 bits in BINARY: its place and the number.
#[tactic(auto, unfolding(crate::specs::Steps::section_number_at))]
#[inline(always)]
pub fn section_number(lexer: &mut Lexer<'_>, binary: bool) -> Result<(u64, i128), FileFault>
    ensures read { Reads (λ n. n) result lexer.new (section_number_at binary lexer.old) }
{
    if binary {
        return block_number(lexer);
    }
    word_number(lexer)
}

/// The end of the keyword's line, which is due in BINARY.
#[tactic(auto, unfolding(crate::specs::Steps::section_start_at))]
pub fn section_start(lexer: &mut Lexer<'_>, binary: bool) -> Result<(), FileFault>
    ensures read { Reads (λ done. done) result lexer.new (section_start_at binary lexer.old) }
{
    if binary {
        return line_end(lexer);
    }
    Ok(())
}

/// Whether a number is the index of one of so many points.
#[inline(always)]
pub fn is_index(points: u64, n: &i128) -> bool
    ensures value { result ≡ is_index points n.now }
{
    *n >= 0 && *n < i128::from(points)
}

/// The index of one of so many points: else Index.
#[tactic(auto, unfolding(crate::specs::Steps::index_at))]
#[inline(always)]
pub(crate) fn index(lexer: &mut Lexer<'_>, binary: bool, points: u64) -> Result<u32, FileFault>
    requires { points < 2 ^ 31 }
    ensures { Reads (λ n. n) result lexer.new (index_at binary points lexer.old) }
{
    let (place, n) = section_number(lexer, binary)?;
    if !is_index(points, &n) {
        return Err(FileFault {
            kind: FileKind::Index,
            place,
        });
    }
    Ok(n as u32)
}

/// Whether a cell may have so many indices, with so many cells and so many numbers left.
pub(crate) fn is_cell_count(cells: u64, left: u64, c: &i128) -> bool
    ensures { result ≡ is_cell_count cells left c.now }
{
    let most = i128::from(left) - i128::from(cells);
    *c >= 0 && *c <= most && (cells != 1 || *c >= most)
}
