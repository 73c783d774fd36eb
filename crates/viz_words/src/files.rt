//! The name of a file, which is text.

ghost use Rattle.std.specs.Prelude.{◌≡◌, true};
ghost use Rattle.viz_words.specs.Names.{is_file_name};

use std::marker::Model;
use viz_base::Word;

/// The name of a file: 1 to 64 letters, digits, `_`, `-` or `.`, the first neither `-` nor `.`. It
/// takes no memory of its own.
#[derive(Clone, Copy, Debug)]
pub struct FileName {
    word: Word,
}

impl Model for FileName {
    ghost use Rattle.std.specs.Prelude.{◌≡◌, ℕ, List, true};
    ghost use Rattle.viz_words.specs.Names.{is_file_name};

    ghost Value = { List ℕ };

    ghost view = { λ name. name.word };

    ghost invariant = { λ name. is_file_name name.word ≡ true };

    ghost inverse = { λ word. record { word = word } };
}

/// The text of bytes that are a file's name. It takes no memory.
pub fn name_text(word: &[u8]) -> &str
    requires names { is_file_name word.now ≡ true }
    ensures value { result.now ≡ word.now }
{
    match std::str::from_utf8(word) {
        Ok(text) => text,
        Err(_) => unreachable!(),
    }
}

impl FileName {
    /// The name of these bytes.
    pub(crate) fn of(word: Word) -> FileName
        requires names { is_file_name word ≡ true }
        ensures value { result ≡ word }
    {
        FileName { word }
    }

    /// The name as text, which a port takes.
    pub fn text(&self) -> &str
        ensures value { result.now ≡ self.now }
        ensures names { is_file_name self.now ≡ true }
    {
        name_text(self.word.bytes())
    }
}
