//! Why a script or a journal isn't read.

ghost use Rattle.std.specs.Prelude.{◌≡◌, IfOk};
ghost use Rattle.viz_words.specs.Refusals.{refusal_word, refused_script};

use std::alloc::{AllocError, AllocFailed, Global};
use thiserror::Error;
use viz_lex::put_whole;

/// What is wrong with a line; of one line they are asked in the order of
/// docs/FORMATS-OF-SCRIPTS.md.
#[derive(Clone, Copy, PartialEq, Eq, Debug, Error)]
pub enum ScriptRefusal {
    /// A byte that may not stand there, or a word that isn't known where one is due.
    #[error("a byte or a word that may not stand there")]
    Word,
    /// Exactly where the number of words is wrong.
    #[error("too few or too many words")]
    Arity,
    /// Exactly where a word isn't a number that may stand there.
    #[error("a word isn't a number that may stand there")]
    Number,
    /// Exactly where a word isn't a name that may stand there.
    #[error("a word isn't a name that may stand there")]
    Name,
    /// Exactly where no actor has this number.
    #[error("no actor has this number")]
    ActorRange,
    /// Exactly where a phase past the 64th begins.
    #[error("too many phases")]
    Phase,
    /// Exactly where the script has too many bytes or lines.
    #[error("too many bytes or lines")]
    TooLong,
    /// Exactly where the network refuses the edit.
    #[error("the network refuses the edit")]
    Edit,
    /// Exactly where a batch is begun, ended or left open where it may not be, or has what it may
    /// not have.
    #[error("a batch that isn't one")]
    Batch,
}

/// Why a script or a journal isn't read, and at which line, counted from 1.
#[derive(Clone, Copy, PartialEq, Eq, Debug, Error)]
pub enum ScriptStop {
    /// The first line that has a refusal, with its first one.
    #[error("a line is refused")]
    Refused { line: u32, refusal: ScriptRefusal },
    /// Want of memory.
    #[error("out of memory")]
    Memory,
}

impl From<AllocError> for ScriptStop {
    ghost use Rattle.viz_words.specs.declared.refusal.ScriptStop.TheVariants.{Memory};

    ghost from_gives = { λ _ stop. stop ≡ Memory };

    fn from(_error: AllocError) -> ScriptStop {
        ScriptStop::Memory
    }
}

impl<T: Drop> From<AllocFailed<T>> for ScriptStop {
    ghost use Rattle.viz_words.specs.declared.refusal.ScriptStop.TheVariants.{Memory};

    ghost from_gives = { λ _ stop. stop ≡ Memory };

    fn from(_error: AllocFailed<T>) -> ScriptStop {
        ScriptStop::Memory
    }
}

/// The word of a refusal, as reports spell it.
pub fn refusal_word(refusal: &ScriptRefusal) -> &'static str
    ensures value { result.now ≡ refusal_word refusal.now }
{
    match refusal {
        ScriptRefusal::Word => "Word",
        ScriptRefusal::Arity => "Arity",
        ScriptRefusal::Number => "Number",
        ScriptRefusal::Name => "Name",
        ScriptRefusal::ActorRange => "ActorRange",
        ScriptRefusal::Phase => "Phase",
        ScriptRefusal::TooLong => "TooLong",
        ScriptRefusal::Edit => "Edit",
        ScriptRefusal::Batch => "Batch",
    }
}

/// The line of a script or journal that is refused.
#[tactic(auto, unfolding(crate::specs::Refusals::refused_script))]
pub fn refused_line(
    alloc: Global,
    line: u32,
    refusal: &ScriptRefusal,
) -> Result<Vec<u8>, AllocError>
    ensures value { IfOk result (λ text. text.items ≡ refused_script line refusal.now) }
{
    let mut text = Vec::from_slice(alloc, b"script line ")?;
    put_whole(&mut text, i128::from(line))?;
    text.push(b' ')?;
    text.extend_from_slice(refusal_word(refusal).as_bytes())?;
    text.push(b'\n')?;
    Ok(text)
}
