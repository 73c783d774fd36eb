//! The types of an array's values in a file.

ghost use Rattle.std.specs.Prelude.{◌≡◌, ◌<◌, true, IfOk};
ghost use Rattle.viz_column.specs.Kinds.{size_of};
ghost use Rattle.viz_lex.specs.Reading.{Reads};
ghost use Rattle.viz_attr.specs.Types.{stored_of, is_left_out_type, is_real, bytes_of};
ghost use Rattle.viz_attr.specs.Values.{kind_of};
ghost use Rattle.viz_attr.specs.Steps.{type_at};

use viz_column::Kind8;
use viz_lex::{FileFault, FileKind, Lexer, is_word};

/// How the values of an array are stored in a file.
#[derive(Clone, Copy, PartialEq, Eq, Debug)]
pub enum Stored {
    /// Whole numbers of one of eight kinds.
    Whole(Kind8),
    /// Numbers of floating point in 4 bytes, which are passed over only.
    Float,
    /// Numbers of floating point in 8 bytes, which are passed over only.
    Double,
}

impl Stored {
    /// How many bytes a value has in a binary file.
    pub fn bytes(self) -> u64
        ensures value { result ≡ bytes_of self }
        ensures few { result < 9 }
    {
        match self {
            Stored::Whole(kind) => kind.size() as u64,
            Stored::Float => 4,
            Stored::Double => 8,
        }
    }

    /// The kind of the whole numbers, where they are some.
    pub(crate) fn kind(self) -> Kind8
        ensures { result ≡ kind_of self }
    {
        match self {
            Stored::Whole(kind) => kind,
            Stored::Float | Stored::Double => Kind8::U8,
        }
    }

    /// Whether the values are of floating point.
    pub fn is_real(self) -> bool
        ensures value { result ≡ is_real self }
    {
        match self {
            Stored::Whole(_) => false,
            Stored::Float | Stored::Double => true,
        }
    }
}

/// How the type that a word names is stored, in any case of letters; None where it names none that
/// is read here.
pub fn stored_of(word: &[u8]) -> Option<Stored>
    ensures value { result ≡ stored_of word.now }
{
    if is_word(word, b"char") {
        return Some(Stored::Whole(Kind8::I8));
    }
    if is_word(word, b"unsigned_char") {
        return Some(Stored::Whole(Kind8::U8));
    }
    if is_word(word, b"short") {
        return Some(Stored::Whole(Kind8::I16));
    }
    if is_word(word, b"unsigned_short") {
        return Some(Stored::Whole(Kind8::U16));
    }
    if is_word(word, b"int") {
        return Some(Stored::Whole(Kind8::I32));
    }
    if is_word(word, b"unsigned_int") {
        return Some(Stored::Whole(Kind8::U32));
    }
    if is_word(word, b"long") || is_word(word, b"vtktypeint64") {
        return Some(Stored::Whole(Kind8::I64));
    }
    if is_word(word, b"unsigned_long") || is_word(word, b"vtktypeuint64") {
        return Some(Stored::Whole(Kind8::U64));
    }
    if is_word(word, b"float") {
        return Some(Stored::Float);
    }
    if is_word(word, b"double") {
        return Some(Stored::Double);
    }
    None
}

/// Whether a word names a type of the format that isn't read here.
pub fn is_left_out(word: &[u8]) -> bool
    ensures value { result ≡ is_left_out_type word.now }
{
    is_word(word, b"bit")
        || is_word(word, b"vtkIdType")
        || is_word(word, b"string")
        || is_word(word, b"utf8_string")
        || is_word(word, b"variant")
}

/// The next word, which is due to be a type: `read` says that the values are to be read as whole
/// numbers, so that float and double are a FloatArray.
///
/// Else the fault is Unsupported exactly at a type of the format that isn't read here, and Keyword
/// exactly at a word that is no type.
#[tactic(auto, unfolding(crate::specs::Steps::type_at))]
pub fn type_word(lexer: &mut Lexer<'_>, read: bool) -> Result<Stored, FileFault>
    ensures read { Reads (λ stored. stored) result lexer.new (type_at read lexer.old) }
    ensures whole { IfOk result (λ stored. read ≡ true
        → bytes_of stored ≡ size_of (kind_of stored)) }
{
    let (place, word) = lexer.due_word()?;
    if is_left_out(word) {
        return Err(FileFault {
            kind: FileKind::Unsupported,
            place,
        });
    }
    let Some(stored) = stored_of(word) else {
        return Err(FileFault {
            kind: FileKind::Keyword,
            place,
        });
    };
    if read && stored.is_real() {
        return Err(FileFault {
            kind: FileKind::FloatArray,
            place,
        });
    }
    Ok(stored)
}
