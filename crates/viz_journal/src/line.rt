//! What a line of a journal says that is none of a batch.

ghost use Rattle.std.specs.Prelude.{◌≡◌, codes, ◌≤◌};
ghost use Rattle.viz_words.specs.Words.{words_of};
ghost use Rattle.viz_journal.specs.Lines.{behind_verb, told_in, head_in, last_in, entry_in};
ghost use Rattle.viz_journal.specs.Lines.{words_in, line_in};

use crate::draft::{Draft, draft_in, journal_verb};
use crate::version::Version;
use viz_words::{
    ScriptRefusal, Verb, due, is_plain, natural, next_word, number, one, two, verb_of,
};

/// The greatest number of edits of a batch.
const BATCH: u32 = 64;

/// What the line of an entry of version 1 says.
#[derive(Debug, Drop)]
pub struct Told {
    pub actor: u32,
    pub count: u32,
    pub draft: Draft,
}

/// What the line in front of a batch says.
#[derive(Clone, Copy, PartialEq, Eq, Debug)]
pub struct Head {
    pub actor: u32,
    pub count: u32,
    /// How many edits the batch has, 1 to 64.
    pub edits: u32,
}

/// What a line says: how many entries there are, an entry of version 1, or that a batch follows.
#[derive(Debug, Drop)]
pub enum Line {
    Last(u32),
    Single(Told),
    Batch(Head),
}

/// The command behind the first word.
fn behind_verb(text: &[u8]) -> Result<Verb, ScriptRefusal>
    ensures { result ≡ behind_verb (words_of text.now) }
{
    match next_word(text) {
        None => Ok(Verb::Missing),
        Some((_, rest)) => verb_of(rest),
    }
}

/// What the words of an entry of version 1 say.
#[tactic(auto, unfolding(crate::specs::Lines::told_in))]
fn told_in(word: &[u8], text: &[u8]) -> Result<Told, ScriptRefusal>
    ensures { result ≡ told_in word.now (words_of text.now) }
{
    if number(word).is_none() {
        return Err(ScriptRefusal::Word);
    }
    let verb = journal_verb(behind_verb(text)?)?;
    let (count, rest) = due(text)?;
    let (_, words) = due(rest)?;
    let draft = draft_in(verb, words)?;
    let count = natural(count, 0, u32::MAX)?;
    let actor = natural(word, 0, u32::MAX)?;
    Ok(Told {
        actor,
        count,
        draft,
    })
}

/// What the words in front of a batch say.
#[tactic(auto, unfolding(crate::specs::Lines::head_in))]
fn head_in(word: &[u8], text: &[u8]) -> Result<Head, ScriptRefusal>
    ensures { result ≡ head_in word.now (words_of text.now) }
{
    if number(word).is_none() {
        return Err(ScriptRefusal::Word);
    }
    let (count, edits) = two(text)?;
    let count = natural(count, 0, u32::MAX)?;
    let edits = natural(edits, 1, BATCH)?;
    let actor = natural(word, 0, u32::MAX)?;
    Ok(Head {
        actor,
        count,
        edits,
    })
}

#[tactic(auto, unfolding(crate::specs::Lines::last_in))]
fn last_in(text: &[u8]) -> Result<Line, ScriptRefusal>
    ensures { result ≡ last_in (words_of text.now) }
{
    let count = one(text)?;
    let count = natural(count, 0, u32::MAX)?;
    Ok(Line::Last(count))
}

fn entry_in(version: Version, word: &[u8], text: &[u8]) -> Result<Line, ScriptRefusal>
    ensures { result ≡ entry_in version word.now (words_of text.now) }
{
    match version {
        Version::One => Ok(Line::Single(told_in(word, text)?)),
        Version::Two => Ok(Line::Batch(head_in(word, text)?)),
    }
}

fn words_in(version: Version, text: &[u8]) -> Result<Line, ScriptRefusal>
    ensures { result ≡ words_in version (words_of text.now) }
{
    let Some((word, rest)) = next_word(text) else {
        return Err(ScriptRefusal::Word);
    };
    if word == b"end".as_slice() {
        return last_in(rest);
    }
    entry_in(version, word, rest)
}

/// What the line says, however it is spelled.
pub(crate) fn line_in(version: Version, text: &[u8]) -> Result<Line, ScriptRefusal>
    ensures { result ≡ line_in version text.now }
{
    if !is_plain(text) {
        return Err(ScriptRefusal::Word);
    }
    words_in(version, text)
}
