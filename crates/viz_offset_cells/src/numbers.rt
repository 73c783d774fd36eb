//! The numbers of a type: words in ASCII, and so many bytes each in BINARY.

ghost use Rattle.std.specs.Prelude.{◌≡◌, ◌<◌, ◌≤◌, ◌^◌, ℤ, true, length, unsigned_abs, IfOk};
ghost use Rattle.viz_column.specs.Kinds.{size_of, fits};
ghost use Rattle.viz_column.specs.Bytes.{number_in};
ghost use Rattle.viz_lex.specs.Reading.{Reads};
ghost use Rattle.viz_offset_cells.specs.Steps.{block_number_at, word_number_at, typed_number_at};
ghost use Rattle.viz_offset_cells.specs.Steps.{index_at};

use byteorder::{BigEndian, ByteOrder};
use viz_column::Kind8;
use viz_counted_cells::{block, is_index};
use viz_lex::{FileFault, FileKind, Lexer};

/// The number in these bytes.
#[inline(always)]
fn whole_in(kind: Kind8, bytes: &[u8]) -> i128
    requires { length bytes.now ≡ size_of kind }
    ensures value { result ≡ number_in kind bytes.now }
    ensures few { unsigned_abs result < 2 ^ 64 }
{
    match kind {
        Kind8::I8 => i128::from(bytes[0].cast_signed()),
        Kind8::U8 => i128::from(bytes[0]),
        Kind8::I16 => i128::from(BigEndian::read_i16(bytes)),
        Kind8::U16 => i128::from(BigEndian::read_u16(bytes)),
        Kind8::I32 => i128::from(BigEndian::read_i32(bytes)),
        Kind8::U32 => i128::from(BigEndian::read_u32(bytes)),
        Kind8::I64 => i128::from(BigEndian::read_i64(bytes)),
        Kind8::U64 => i128::from(BigEndian::read_u64(bytes)),
    }
}

/// A number in BINARY: its place and the number.
#[tactic(auto, unfolding(crate::specs::Steps::block_number_at))]
#[inline(always)]
fn block_number(lexer: &mut Lexer<'_>, kind: Kind8) -> Result<(u64, i128), FileFault>
    ensures read { Reads (λ n. n) result lexer.new (block_number_at kind lexer.old) }
    ensures few { IfOk result (λ n. unsigned_abs n.1 < 2 ^ 64) }
{
    let place = lexer.place();
    let bytes = block(lexer, kind.size() as u64)?;
    Ok((place, whole_in(kind, bytes)))
}

/// Whether a number lies in the range of its kind.
fn is_in_range(kind: Kind8, n: &i128) -> bool
    ensures value { result ≡ fits kind n.now }
    ensures few { result ≡ true → unsigned_abs n.now < 2 ^ 64 }
{
    kind.fits(*n)
}

/// A number in ASCII: its place and the number.
#[tactic(auto, unfolding(crate::specs::Steps::word_number_at))]
#[inline(never)]
fn word_number(lexer: &mut Lexer<'_>, kind: Kind8) -> Result<(u64, i128), FileFault>
    ensures read { Reads (λ n. n) result lexer.new (word_number_at kind lexer.old) }
    ensures few { IfOk result (λ n. unsigned_abs n.1 < 2 ^ 64) }
{
    let (place, n) = lexer.due_number()?;
    if !is_in_range(kind, &n) {
        return Err(FileFault {
            kind: FileKind::ValueRange,
            place,
        });
    }
    Ok((place, n))
}

/// The next number: its place and the number.
#[tactic(auto, unfolding(crate::specs::Steps::typed_number_at))]
#[inline(always)]
pub(crate) fn typed_number(
    lexer: &mut Lexer<'_>,
    binary: bool,
    kind: Kind8,
) -> Result<(u64, i128), FileFault>
    ensures read { Reads (λ n. n) result lexer.new (typed_number_at binary kind lexer.old) }
    ensures few { IfOk result (λ n. unsigned_abs n.1 < 2 ^ 64) }
{
    if binary {
        return block_number(lexer, kind);
    }
    word_number(lexer, kind)
}

/// The index of one of so many points: else Index.
#[tactic(auto, unfolding(crate::specs::Steps::index_at))]
#[inline(always)]
pub(crate) fn index(
    lexer: &mut Lexer<'_>,
    binary: bool,
    kind: Kind8,
    points: u64,
) -> Result<u32, FileFault>
    requires { points < 2 ^ 31 }
    ensures { Reads (λ n. n) result lexer.new (index_at binary kind points lexer.old) }
{
    let (place, n) = typed_number(lexer, binary, kind)?;
    if !is_index(points, &n) {
        return Err(FileFault {
            kind: FileKind::Index,
            place,
        });
    }
    Ok(n as u32)
}
