//! The reader of a text.

ghost use Rattle.std.specs.Prelude.{◌≡◌, ◌↔◌, ◌<◌, ◌≤◌, ℕ, List, length, option_map, IsNone};
ghost use Rattle.std.specs.Prelude.{IfSome, IfOk, OnOk};
ghost use Rattle.viz_lex.specs.Decimals.{decimal_at, IsDecimalAt};
ghost use Rattle.viz_lex.specs.Blocks.{block_at, IsBlockAt};
ghost use Rattle.viz_lex.specs.Passing.{words_at, metadata_at, IsNextWords, IsBehindMetadata};
ghost use Rattle.viz_lex.specs.Reading.{rest_of, fault_at, Gives, Finds};
ghost use Rattle.viz_lex.specs.Words.{text_of, word_at, line_at, line_end_at, IsBlank};
ghost use Rattle.viz_lex.specs.Words.{HasNoNewline, IsFiller, IsWordAt, IsLineAt, IsLineEndAt};
ghost use Rattle.viz_lex.specs.Numbers.{whole_at, IsNumberAt};
ghost use Rattle.viz_lex.specs.declared.fault.FileKind.TheVariants.{Truncated};

use crate::decimal::decimal;
use crate::fault::{FileFault, FileKind};
use crate::metadata::metadata_len;
use crate::number::number;
use crate::pass::words_len;
use crate::scan::{blanks, fillers, line_len, word_len};
use crate::span::Span;
use std::marker::Model;

/// The bytes of a text, and the place up to which they are read.
#[derive(Drop)]
pub struct Lexer<'a> {
    bytes: &'a [u8],
    place: usize,
}

impl<'a> Model for Lexer<'a> {
    ghost use Rattle.std.specs.Prelude.{◌≤◌, length};
    ghost use Rattle.viz_lex.specs.Reading.{Reading};

    ghost Value = { Reading };

    ghost view = { λ l. record { bytes = l.bytes.now; place = l.place } };

    ghost invariant = { λ l. l.place ≤ length l.bytes.now };
}

impl<'a> Lexer<'a> {
    /// Nothing is read yet.
    pub fn new(bytes: &'a [u8]) -> Lexer<'a>
        ensures value { result ≡ record { bytes = bytes.now; place = 0 } }
    {
        Lexer { bytes, place: 0 }
    }

    /// The number of bytes that are read.
    pub fn place(&self) -> u64
        ensures value { result ≡ self.now.place }
        ensures within { result ≤ length self.now.bytes }
    {
        self.place as u64
    }

    /// All the bytes, read or not: the place of a fault at the end is their number.
    pub fn bytes(&self) -> &'a [u8]
        ensures value { result.now ≡ self.now.bytes }
    {
        self.bytes
    }

    /// The bytes of a span.
    pub fn text(&self, span: &Span) -> &'a [u8]
        requires ordered { span.now.start ≤ span.now.«end» }
        requires within { span.now.«end» ≤ length self.now.bytes }
        ensures value { result.now ≡ text_of self.now span.now }
    {
        &self.bytes[span.start as usize..span.end as usize]
    }

    /// The next word: the blanks in front of it are passed over.
    #[tactic(auto, unfolding(crate::specs::Words::word_at))]
    pub fn word(&mut self) -> Option<Span>
        ensures value { Finds result self.old self.new (word_at self.old) }
        ensures some { IfSome result (IsWordAt self.old self.new) }
        ensures none { IsNone result ↔ IsBlank (rest_of self.old) }

        // Where the word lies.
        ensures long { IfSome result (λ span. span.start < span.«end») }
        ensures within { IfSome result (λ span. span.«end» ≤ length self.old.bytes) }

        // The bytes stay, and the place rises.
        ensures kept { self.new.bytes ≡ self.old.bytes }
        ensures onward { self.old.place ≤ self.new.place }
        ensures at_most { self.new.place ≤ length self.old.bytes }
    {
        let span = self.ahead()?;
        self.place = span.end as usize;
        Some(span)
    }

    /// The word that `word` finds: it isn't passed over.
    #[tactic(auto, unfolding(crate::specs::Words::word_at))]
    pub fn ahead(&self) -> Option<Span>
        ensures value { result ≡ option_map (λ found. found.0) (word_at self.now) }
        ensures none { IsNone result ↔ IsBlank (rest_of self.now) }
        ensures ahead { IfSome result (λ span. self.now.place ≤ span.start) }
        ensures long { IfSome result (λ span. span.start < span.«end») }
        ensures within { IfSome result (λ span. span.«end» ≤ length self.now.bytes) }
    {
        let rest = &self.bytes[self.place..];
        let gap = blanks(rest);
        let len = word_len(&rest[gap..]);
        if len == 0 {
            return None;
        }
        let start = self.place + gap;
        Some(Span {
            start: start as u64,
            end: (start + len) as u64,
        })
    }

    /// The bytes up to the next newline, which is passed over.
    #[tactic(auto, unfolding(crate::specs::Words::line_at))]
    pub fn line(&mut self) -> Option<Span>
        ensures value { Finds result self.old self.new (line_at self.old) }
        ensures some { IfSome result (IsLineAt self.old self.new) }
        ensures none { IsNone result ↔ HasNoNewline (rest_of self.old) }

        // Where the line lies.
        ensures ordered { IfSome result (λ span. span.start ≤ span.«end») }
        ensures within { IfSome result (λ span. span.«end» ≤ length self.old.bytes) }

        // The bytes stay, and the place rises.
        ensures kept { self.new.bytes ≡ self.old.bytes }
        ensures onward { self.old.place ≤ self.new.place }
        ensures at_most { self.new.place ≤ length self.old.bytes }
    {
        let start = self.place;
        let len = line_len(&self.bytes[start..])?;
        let end = start + len;
        self.place = end + 1;
        Some(Span {
            start: start as u64,
            end: end as u64,
        })
    }

    /// The next word, as a whole number.
    #[tactic(auto, unfolding(crate::specs::Words::word_at, crate::specs::Numbers::whole_at))]
    pub fn whole(&mut self) -> Result<i128, FileFault>
        ensures value { Gives result self.old self.new (whole_at self.old) }
        ensures ok { IfOk result (IsNumberAt self.old self.new) }
        ensures truncated { (result ≡ Err (fault_at Truncated (length self.old.bytes)))
            ↔ IsBlank (rest_of self.old) }

        // The bytes stay, and the place rises.
        ensures kept { self.new.bytes ≡ self.old.bytes }
        ensures onward { self.old.place ≤ self.new.place }
        ensures at_most { self.new.place ≤ length self.old.bytes }
    {
        let Some(span) = self.ahead() else {
            return Err(FileFault {
                kind: FileKind::Truncated,
                place: self.bytes.len() as u64,
            });
        };
        let n = number(self.text(&span), span.start)?;
        self.place = span.end as usize;
        Ok(n)
    }

    /// The next word as a decimal, in billionths, truncated toward zero.
    #[tactic(auto, unfolding(crate::specs::Words::word_at, crate::specs::Decimals::decimal_at))]
    pub fn decimal(&mut self) -> Result<i128, FileFault>
        ensures value { Gives result self.old self.new (decimal_at self.old) }
        ensures ok { IfOk result (IsDecimalAt self.old self.new) }
        ensures truncated { (result ≡ Err (fault_at Truncated (length self.old.bytes)))
            ↔ IsBlank (rest_of self.old) }

        // The bytes stay, and the place rises.
        ensures kept { self.new.bytes ≡ self.old.bytes }
        ensures onward { self.old.place ≤ self.new.place }
        ensures at_most { self.new.place ≤ length self.old.bytes }
    {
        let Some(word) = self.ahead() else {
            return Err(FileFault {
                kind: FileKind::Truncated,
                place: self.bytes.len() as u64,
            });
        };
        let Some(n) = decimal(self.text(&word)) else {
            return Err(FileFault {
                kind: FileKind::HeaderNumber,
                place: word.start,
            });
        };
        self.place = word.end as usize;
        Ok(n)
    }

    /// Moves behind the next newline, in front of which only spaces, tabs and carriage returns may
    /// stand.
    #[tactic(auto, unfolding(crate::specs::Words::line_end_at))]
    pub fn line_end(&mut self) -> Result<(), FileFault>
        ensures value { Gives result self.old self.new (line_end_at self.old) }
        ensures ok { OnOk result (IsLineEndAt self.old self.new) }
        ensures truncated { (result ≡ Err (fault_at Truncated (length self.old.bytes)))
            ↔ IsFiller (rest_of self.old) }

        // The bytes stay, and the place rises.
        ensures kept { self.new.bytes ≡ self.old.bytes }
        ensures onward { self.old.place ≤ self.new.place }
        ensures at_most { self.new.place ≤ length self.old.bytes }
    {
        let rest = &self.bytes[self.place..];
        let place = self.place + fillers(rest);
        if place == self.bytes.len() {
            return Err(FileFault {
                kind: FileKind::Truncated,
                place: place as u64,
            });
        }
        if self.bytes[place] != b'\n' {
            return Err(FileFault {
                kind: FileKind::Keyword,
                place: place as u64,
            });
        }
        self.place = place + 1;
        Ok(())
    }

    /// The next `count` bytes.
    #[tactic(auto, unfolding(crate::specs::Blocks::block_at))]
    pub fn block(&mut self, count: u64) -> Result<Span, FileFault>
        ensures value { Gives result self.old self.new (block_at count self.old) }
        ensures ok { IfOk result (IsBlockAt count self.old self.new) }
        ensures truncated { (result ≡ Err (fault_at Truncated (length self.old.bytes)))
            ↔ (length (rest_of self.old) < count) }

        // Where the block lies.
        ensures ordered { IfOk result (λ span. span.start ≤ span.«end») }
        ensures within { IfOk result (λ span. span.«end» ≤ length self.old.bytes) }

        // The bytes stay, and the place rises.
        ensures kept { self.new.bytes ≡ self.old.bytes }
        ensures onward { self.old.place ≤ self.new.place }
        ensures at_most { self.new.place ≤ length self.old.bytes }
    {
        let len = self.bytes.len();
        let start = self.place;
        if count > (len - start) as u64 {
            return Err(FileFault {
                kind: FileKind::Truncated,
                place: len as u64,
            });
        }
        let end = start + count as usize;
        self.place = end;
        Ok(Span {
            start: start as u64,
            end: end as u64,
        })
    }

    /// Passes over the next `count` words, and stops right behind the last of them.
    pub fn pass(&mut self, count: u64) -> Result<(), FileFault>
        ensures value { Gives result self.old self.new (words_at count self.old) }
        ensures ok { OnOk result (IsNextWords count (rest_of self.old) (rest_of self.new)) }
        ensures truncated { (result ≡ Err (fault_at Truncated (length self.old.bytes)))
            ↔ ((behind : List ℕ) → IsNextWords count (rest_of self.old) behind → ⊥) }

        // The bytes stay, and the place rises.
        ensures kept { self.new.bytes ≡ self.old.bytes }
        ensures onward { self.old.place ≤ self.new.place }
        ensures at_most { self.new.place ≤ length self.old.bytes }
    {
        let Some(len) = words_len(&self.bytes[self.place..], count) else {
            return Err(FileFault {
                kind: FileKind::Truncated,
                place: self.bytes.len() as u64,
            });
        };
        self.place += len;
        Ok(())
    }

    /// Passes over the rest of the line and the lines behind it, up to and with the first empty
    /// one, or to the end where there is none: called behind the word METADATA.
    #[tactic(auto, unfolding(crate::specs::Passing::metadata_at))]
    pub fn pass_metadata(&mut self)
        ensures value { metadata_at self.old ≡ Ok (tt, self.new) }
        ensures lines { IsBehindMetadata (rest_of self.old) (rest_of self.new) }

        // The bytes stay, and the place rises.
        ensures kept { self.new.bytes ≡ self.old.bytes }
        ensures onward { self.old.place ≤ self.new.place }
        ensures at_most { self.new.place ≤ length self.old.bytes }
    {
        self.place += metadata_len(&self.bytes[self.place..]);
    }
}
