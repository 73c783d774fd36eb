//! Which command the words are.

ghost use Rattle.std.specs.Prelude.{◌≡◌};
ghost use Rattle.viz_words.specs.Words.{words_of};
ghost use Rattle.viz_words.specs.Commands.{add_verb, set_verb, verb_of};

use crate::command::{Command, Verb};
use crate::refusal::ScriptRefusal;
use crate::scan::next_word;
use crate::table::{command_named, kind_named, param_named};

fn add_verb(text: &[u8]) -> Result<Verb, ScriptRefusal>
    ensures { result ≡ add_verb (words_of text.now) }
{
    let Some((word, _)) = next_word(text) else {
        return Ok(Verb::Missing);
    };
    match kind_named(word) {
        Some(kind) => Ok(Verb::Add(kind)),
        None => Err(ScriptRefusal::Word),
    }
}

fn set_verb(text: &[u8]) -> Result<Verb, ScriptRefusal>
    ensures { result ≡ set_verb (words_of text.now) }
{
    let Some((_, rest)) = next_word(text) else {
        return Ok(Verb::Missing);
    };
    let Some((word, _)) = next_word(rest) else {
        return Ok(Verb::Missing);
    };
    match param_named(word) {
        Some(param) => Ok(Verb::Set(param)),
        None => Err(ScriptRefusal::Word),
    }
}

/// The command of the words, with its kind or its parameter.
///
/// # Errors
///
/// Word, where the command, its kind or its parameter isn't known. What is missing is no error
/// here.
pub fn verb_of(text: &[u8]) -> Result<Verb, ScriptRefusal>
    ensures value { result ≡ verb_of (words_of text.now) }
{
    let Some((word, rest)) = next_word(text) else {
        return Ok(Verb::Missing);
    };
    match command_named(word) {
        None => Err(ScriptRefusal::Word),
        Some(Command::Add) => add_verb(rest),
        Some(Command::Remove) => Ok(Verb::Remove),
        Some(Command::Connect) => Ok(Verb::Connect),
        Some(Command::Disconnect) => Ok(Verb::Disconnect),
        Some(Command::Set) => set_verb(rest),
        Some(Command::Load) => Ok(Verb::Load),
        Some(Command::Update) => Ok(Verb::Update),
        Some(Command::Audit) => Ok(Verb::Audit),
        Some(Command::Begin) => Ok(Verb::Begin),
        Some(Command::End) => Ok(Verb::End),
    }
}
