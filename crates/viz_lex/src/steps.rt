//! The steps of reading a file: words, numbers and keywords that are due.

ghost use Rattle.std.specs.Prelude.{◌≡◌, ◌≤◌, not, length, OnErr, IfOk, unsigned_abs, ◌^◌};
ghost use Rattle.viz_lex.specs.Reading.{fault_at, rest_of, Reads};
ghost use Rattle.viz_lex.specs.Words.{word_at};
ghost use Rattle.viz_lex.specs.Readers.{any_metadata_at};
ghost use Rattle.viz_lex.specs.Steps.{has, same_word, due_word, due_number, due_decimal};
ghost use Rattle.viz_lex.specs.Steps.{is_left_out, keyword_kind, keyword_at, is_next, continues};
ghost use Rattle.viz_lex.specs.Steps.{is_beside};

use crate::decimal::decimal;
use crate::fault::{FileFault, FileKind};
use crate::lexer::Lexer;
use crate::number::number;
use crate::scan::is_blank;

/// Whether two words are the same but for the case of letters.
pub fn is_word(text: &[u8], keyword: &[u8]) -> bool
    ensures value { result ≡ same_word text.now keyword.now }
{
    text.eq_ignore_ascii_case(keyword)
}

fn is_left_out(word: &[u8]) -> bool
    ensures { result ≡ is_left_out word.now }
{
    is_word(word, b"GLOBAL_IDS")
        || is_word(word, b"PEDIGREE_IDS")
        || is_word(word, b"TENSORS6")
        || is_word(word, b"EDGE_FLAGS")
}

/// The fault of a word that stands in the place of a keyword and is none that may stand there:
/// Unsupported exactly at a keyword of the format that isn't read here, else Keyword.
pub fn keyword_fault(place: u64, word: &[u8]) -> FileFault
    ensures value { result ≡ fault_at (keyword_kind word.now) place }
{
    let kind = if is_left_out(word) {
        FileKind::Unsupported
    } else {
        FileKind::Keyword
    };
    FileFault { kind, place }
}

fn continues(text: &[u8]) -> bool
    ensures { result ≡ continues text.now }
{
    for b in text {
        if *b == b'\n' {
            return false;
        }
        if !is_blank(*b) {
            return true;
        }
    }
    false
}

impl<'a> Lexer<'a> {
    /// The next word, which is due: its place and its bytes.
    #[tactic(auto, unfolding(crate::specs::Steps::due_word))]
    pub fn due_word(&mut self) -> Result<(u64, &'a [u8]), FileFault>
        ensures value { Reads (λ word. (word.0, word.1.now)) result self.new (due_word self.old) }
        ensures err { OnErr result (self.new ≡ self.old) }
    {
        match self.word() {
            Some(span) => Ok((span.start, self.text(&span))),
            None => Err(FileFault {
                kind: FileKind::Truncated,
                place: self.bytes().len() as u64,
            }),
        }
    }

    /// The next word, which is due to be a whole number: its place and the number.
    #[tactic(auto, unfolding(crate::specs::Steps::due_number))]
    pub fn due_number(&mut self) -> Result<(u64, i128), FileFault>
        ensures value { Reads (λ n. n) result self.new (due_number self.old) }
    {
        let (place, word) = self.due_word()?;
        let n = number(word, place)?;
        Ok((place, n))
    }

    /// The next word, which is due to be a decimal: its place and its billionths.
    #[tactic(auto, unfolding(crate::specs::Steps::due_decimal))]
    pub fn due_decimal(&mut self) -> Result<(u64, i128), FileFault>
        ensures value { Reads (λ z. z) result self.new (due_decimal self.old) }
        ensures within { IfOk result (λ z. unsigned_abs z.1 ≤ 10 ^ 27) }
    {
        let (place, word) = self.due_word()?;
        match decimal(word) {
            Some(z) => Ok((place, z)),
            None => Err(FileFault {
                kind: FileKind::HeaderNumber,
                place,
            }),
        }
    }

    /// The next word, which is due to be this keyword, in any case of letters.
    #[tactic(auto, unfolding(crate::specs::Steps::keyword_at))]
    pub fn due_keyword(&mut self, keyword: &[u8]) -> Result<(), FileFault>
        ensures value { Reads (λ done. done) result self.new (keyword_at keyword.now self.old) }
    {
        let (place, word) = self.due_word()?;
        if !is_word(word, keyword) {
            return Err(keyword_fault(place, word));
        }
        Ok(())
    }

    /// Whether the next word is this one, in any case of letters.
    pub fn is_next(&self, keyword: &[u8]) -> bool
        ensures value { result ≡ is_next keyword.now self.now }
    {
        match self.ahead() {
            Some(span) => is_word(self.text(&span), keyword),
            None => false,
        }
    }

    /// Passes METADATA over, with its lines, where that word stands next, in any case of letters.
    #[tactic(auto, unfolding(crate::specs::Readers::any_metadata_at))]
    pub fn any_metadata(&mut self) -> Result<(), FileFault>
        ensures value { Reads (λ done. done) result self.new (any_metadata_at self.old) }
    {
        if self.is_next(b"METADATA") {
            self.due_word()?;
            self.pass_metadata();
        }
        Ok(())
    }

    /// Whether only blanks are left.
    pub fn is_done(&self) -> bool
        ensures value { result ≡ not (has (word_at self.now)) }
    {
        self.ahead().is_none()
    }

    /// Whether a byte that is no blank stands before the next newline.
    pub fn is_beside(&self) -> bool
        ensures value { result ≡ is_beside self.now }
    {
        continues(&self.bytes()[self.place() as usize..])
    }
}
