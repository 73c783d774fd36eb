//! Just so many words.

ghost use Rattle.std.specs.Prelude.{◌≡◌, length};
ghost use Rattle.viz_words.specs.Words.{words_of};
ghost use Rattle.viz_words.specs.Gives.{Gives};
ghost use Rattle.viz_words.specs.Commands.{due, one, two, three, four};

use crate::refusal::ScriptRefusal;
use crate::scan::next_word;

/// The next word, which is due, and what stands behind it.
pub fn due(text: &[u8]) -> Result<(&[u8], &[u8]), ScriptRefusal>
    ensures gives { Gives (λ x. (x.0.now, words_of x.1.now)) result (due (words_of text.now)) }
{
    match next_word(text) {
        Some(found) => Ok(found),
        None => Err(ScriptRefusal::Arity),
    }
}

/// The one word of the text.
#[tactic(auto, unfolding(crate::specs::Commands::one))]
pub fn one(text: &[u8]) -> Result<&[u8], ScriptRefusal>
    ensures gives { Gives (λ x. x.now) result (one (words_of text.now)) }
{
    let (a, rest) = due(text)?;
    if next_word(rest).is_some() {
        return Err(ScriptRefusal::Arity);
    }
    Ok(a)
}

/// The two words of the text.
#[tactic(auto, unfolding(crate::specs::Commands::two))]
pub fn two(text: &[u8]) -> Result<(&[u8], &[u8]), ScriptRefusal>
    ensures gives { Gives (λ x. (x.0.now, x.1.now)) result (two (words_of text.now)) }
{
    let (a, rest) = due(text)?;
    let b = one(rest)?;
    Ok((a, b))
}

/// The three words of the text.
#[tactic(auto, unfolding(crate::specs::Commands::three))]
pub fn three(text: &[u8]) -> Result<(&[u8], &[u8], &[u8]), ScriptRefusal>
    ensures gives { Gives (λ x. (x.0.now, x.1.now, x.2.now)) result (three (words_of text.now)) }
{
    let (a, rest) = due(text)?;
    let (b, c) = two(rest)?;
    Ok((a, b, c))
}

/// The four words of the text.
#[tactic(auto, unfolding(crate::specs::Commands::four))]
pub fn four(text: &[u8]) -> Result<(&[u8], &[u8], &[u8], &[u8]), ScriptRefusal>
    ensures gives { Gives (λ x. (x.0.now, x.1.now, x.2.now, x.3.now)) result
        (four (words_of text.now)) }
{
    let (a, rest) = due(text)?;
    let (b, c, d) = three(rest)?;
    Ok((a, b, c, d))
}
