//! What a line of a session says.

ghost use Rattle.std.specs.Prelude.{◌≡◌, codes};
ghost use Rattle.viz_words.specs.Words.{words_of};
ghost use Rattle.viz_words.specs.Gives.{Gives};
ghost use Rattle.viz_console.specs.Lines.{alone, command_in, words_in, line_in};
ghost use Rattle.viz_console.specs.Steps.Heard.{heard, heard_result};

use viz_script::{Order, ScriptRefusal, order_in};
use viz_words::{Verb, is_plain, is_skipped, next_word, verb_of};

/// What a line says.
#[derive(Debug, Drop)]
pub enum Said {
    Nothing,
    Quit,
    Begin,
    End,
    Order(Order),
}

// What was said, where no further word stands.
fn alone(said: Said, text: &[u8]) -> Result<Said, ScriptRefusal>
    ensures { Gives heard result (alone (heard said) (words_of text.now)) }
{
    match next_word(text) {
        None => Ok(said),
        Some(_) => Err(ScriptRefusal::Arity),
    }
}

// What a command says with the words behind it.
fn command_in(verb: Verb, text: &[u8]) -> Result<Said, ScriptRefusal>
    ensures { Gives heard result (command_in verb (words_of text.now)) }
{
    match verb {
        Verb::Begin => alone(Said::Begin, text),
        Verb::End => alone(Said::End, text),
        _ => Ok(Said::Order(order_in(verb, text)?)),
    }
}

fn words_in(text: &[u8]) -> Result<Said, ScriptRefusal>
    ensures { Gives heard result (words_in (words_of text.now)) }
{
    let Some((word, rest)) = next_word(text) else {
        return Ok(Said::Nothing);
    };
    if word == b"quit".as_slice() {
        return alone(Said::Quit, rest);
    }
    let verb = verb_of(text)?;
    command_in(verb, rest)
}

/// What the line says, or its own first refusal.
pub fn line_in(text: &[u8]) -> Result<Said, ScriptRefusal>
    ensures { heard_result result ≡ line_in text.now }
{
    if is_skipped(text) {
        return Ok(Said::Nothing);
    }
    if !is_plain(text) {
        return Err(ScriptRefusal::Word);
    }
    words_in(text)
}
