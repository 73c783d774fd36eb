//! The edit that a line says.

ghost use Rattle.std.specs.Prelude.{◌≡◌};
ghost use Rattle.viz_words.specs.Words.{words_of};
ghost use Rattle.viz_journal.specs.Lines.{journal_verb, load_draft, draft_in, commanded};
ghost use Rattle.viz_journal.specs.Lines.{draft_words, draft_of};

use viz_base::Word;
use viz_network::Edit;
use viz_words::{
    ScriptRefusal, Verb, edit_in, is_plain, next_word, node_name, number, two, verb_of,
};

/// An edit, or a load without its bytes.
#[derive(Debug, Drop)]
pub enum Draft {
    Edit(Edit),
    Load { node: Word, len: i64 },
}

/// A command that may stand in a journal.
pub(crate) fn journal_verb(verb: Verb) -> Result<Verb, ScriptRefusal>
    ensures { result ≡ journal_verb verb }
{
    match verb {
        Verb::Update | Verb::Audit | Verb::Begin | Verb::End => Err(ScriptRefusal::Word),
        _ => Ok(verb),
    }
}

#[tactic(auto, unfolding(crate::specs::Lines::load_draft))]
fn load_draft(text: &[u8]) -> Result<Draft, ScriptRefusal>
    ensures { result ≡ load_draft (words_of text.now) }
{
    let (node, len) = two(text)?;
    let node = node_name(node)?;
    match number(len) {
        Some(len) => Ok(Draft::Load { node, len }),
        None => Err(ScriptRefusal::Number),
    }
}

/// The edit of a command, of whose words these stand behind it.
pub(crate) fn draft_in(verb: Verb, text: &[u8]) -> Result<Draft, ScriptRefusal>
    ensures { result ≡ draft_in verb (words_of text.now) }
{
    match verb {
        Verb::Load => load_draft(text),
        _ => Ok(Draft::Edit(edit_in(verb, text)?)),
    }
}

/// The edit of the words.
#[tactic(auto, unfolding(crate::specs::Lines::commanded))]
fn draft_words(text: &[u8]) -> Result<Draft, ScriptRefusal>
    ensures { result ≡ draft_words (words_of text.now) }
{
    let Some((_, words)) = next_word(text) else {
        return Err(ScriptRefusal::Word);
    };
    let verb = journal_verb(verb_of(text)?)?;
    draft_in(verb, words)
}

/// The edit that a line of a batch says, however it is spelled.
pub(crate) fn draft_of(text: &[u8]) -> Result<Draft, ScriptRefusal>
    ensures { result ≡ draft_of text.now }
{
    if !is_plain(text) {
        return Err(ScriptRefusal::Word);
    }
    draft_words(text)
}
