//! The types of offsets and indices.

ghost use Rattle.std.specs.Prelude.{◌≡◌};
ghost use Rattle.viz_lex.specs.Reading.{Reads};
ghost use Rattle.viz_offset_cells.specs.Offsets.{kind_named};
ghost use Rattle.viz_offset_cells.specs.Steps.{index_type_at};

use viz_attr::{Stored, is_left_out, stored_of};
use viz_column::Kind8;
use viz_lex::{FileFault, FileKind, Lexer, is_word};

/// The kind of whole numbers that a type word names, in any case of letters.
fn kind_named(word: &[u8]) -> Option<Kind8>
    ensures { result ≡ kind_named word.now }
{
    if is_word(word, b"vtktypeint32") {
        return Some(Kind8::I32);
    }
    if is_word(word, b"vtktypeuint32") {
        return Some(Kind8::U32);
    }
    match stored_of(word) {
        Some(Stored::Whole(kind)) => Some(kind),
        _ => None,
    }
}

/// The next word, which is due to be a type of whole numbers: Unsupported exactly at a type of the
/// format that isn't read here, and Keyword at each other word.
#[tactic(auto, unfolding(crate::specs::Steps::index_type_at))]
pub(crate) fn index_type(lexer: &mut Lexer<'_>) -> Result<Kind8, FileFault>
    ensures { Reads (λ kind. kind) result lexer.new (index_type_at lexer.old) }
{
    let (place, word) = lexer.due_word()?;
    if is_left_out(word) {
        return Err(FileFault {
            kind: FileKind::Unsupported,
            place,
        });
    }
    let Some(kind) = kind_named(word) else {
        return Err(FileFault {
            kind: FileKind::Keyword,
            place,
        });
    };
    Ok(kind)
}
