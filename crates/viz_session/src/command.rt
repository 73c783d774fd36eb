//! Commands, read from their words (docs/FORMATS.md, "Words of a command").

ghost use Rattle.std.specs.Prelude.{◌≡◌, option_map};
ghost use Rattle.viz_session.specs.Command.{script_of, scratch_of, migrate_of, size_in, make_of};
ghost use Rattle.viz_session.specs.Command.{command_of};
ghost use Rattle.viz_session.specs.Runs.{command_view};

use viz_base::Bytes;
use viz_make::{Make, volume_extent};
use viz_migrate::Migrate;
use viz_once::{Once, file_name_text, read_clip, read_once, read_strip};
use viz_replay::Replay;
use viz_words::{file_name, natural, node_name};

/// A command of the program.
#[derive(Clone, Copy, Debug)]
pub enum Command<'a> {
    /// The words `once IN OUT` and a filter, `strip IN OUT`, or `clip IN OUT A B C R`.
    Once(Once<'a>),
    /// The words `run SCRIPT JOURNAL`.
    Script { script: &'a str, journal: &'a str },
    /// The words `scratch JOURNAL N SINK OUT`.
    Scratch(Replay<'a>),
    /// The words `migrate JOURNAL OUT`.
    Migrate(Migrate<'a>),
    /// The words `make NUMBER NX NY NZ OUT`.
    Make(Make<'a>),
}

#[tactic(auto, unfolding(crate::specs::Command::script_of))]
fn script(words: &[Bytes]) -> Option<Command<'_>>
    ensures { option_map command_view result ≡ script_of words.now }
{
    let [script, journal] = words else {
        return None;
    };
    let script = file_name_text(script.list())?;
    let journal = file_name_text(journal.list())?;
    Some(Command::Script { script, journal })
}

#[tactic(auto, unfolding(crate::specs::Command::scratch_of))]
fn scratch(words: &[Bytes]) -> Option<Command<'_>>
    ensures { option_map command_view result ≡ scratch_of words.now }
{
    let [journal, count, sink, output] = words else {
        return None;
    };
    let journal = file_name_text(journal.list())?;
    let count = natural(count.list(), 0, 65_536).ok()?;
    let sink = node_name(sink.list()).ok()?;
    let output = file_name(output.list()).ok()?;
    Some(Command::Scratch(Replay {
        journal,
        count,
        sink,
        output,
    }))
}

#[tactic(auto, unfolding(crate::specs::Command::migrate_of))]
fn migrate(words: &[Bytes]) -> Option<Command<'_>>
    ensures { option_map command_view result ≡ migrate_of words.now }
{
    let [journal, output] = words else {
        return None;
    };
    let journal = file_name_text(journal.list())?;
    let output = file_name_text(output.list())?;
    Some(Command::Migrate(Migrate { journal, output }))
}

/// A size along an axis.
fn size(word: &[u8]) -> Option<u32>
    ensures { result ≡ size_in word.now }
{
    natural(word, 1, 262_144).ok()
}

#[tactic(auto, unfolding(crate::specs::Command::make_of))]
fn make(words: &[Bytes]) -> Option<Command<'_>>
    ensures { option_map command_view result ≡ make_of words.now }
{
    let [number, x, y, z, output] = words else {
        return None;
    };
    let number = natural(number.list(), 0, 2_147_483_647).ok()?;
    let x = size(x.list())?;
    let y = size(y.list())?;
    let z = size(z.list())?;
    let extent = volume_extent(x, y, z)?;
    let output = file_name_text(output.list())?;
    Some(Command::Make(Make {
        number,
        extent,
        output,
    }))
}

/// The command that all words are.
#[tactic(auto, unfolding(crate::specs::Command::command_of))]
pub fn read_command(words: &[Bytes]) -> Option<Command<'_>>
    ensures { option_map command_view result ≡ command_of words.now }
{
    let [verb, rest @ ..] = words else {
        return None;
    };
    if verb.list() == b"once".as_slice() {
        return Some(Command::Once(read_once(rest)?));
    }
    if verb.list() == b"strip".as_slice() {
        return Some(Command::Once(read_strip(rest)?));
    }
    if verb.list() == b"clip".as_slice() {
        return Some(Command::Once(read_clip(rest)?));
    }
    if verb.list() == b"run".as_slice() {
        return script(rest);
    }
    if verb.list() == b"scratch".as_slice() {
        return scratch(rest);
    }
    if verb.list() == b"migrate".as_slice() {
        return migrate(rest);
    }
    if verb.list() == b"make".as_slice() {
        return make(rest);
    }
    None
}
