//! A journal read, and its sink updated.

ghost use Rattle.std.specs.Prelude.{◌≡◌, ◌≤◌, min, length, [], Ok};
ghost use Rattle.viz_journal.specs.Entries.{edit_limit, edits_of};
ghost use Rattle.viz_journal.specs.Reading.{journal_read};
ghost use Rattle.viz_replay.specs.Replay.{IsEndOfReplay, IsReplayRun, IsUpdated, entries_at};
ghost use Rattle.viz_replay.specs.Served.{replay_of, IsServed};

use crate::came::Came;
use crate::network::network_of;
use std::alloc::Global;
use viz_account::update_from_scratch;
use viz_base::{Port, ReadRefusal, Word};
use viz_journal::{JournalEntry, nothing_else_is_read, read_journal};
use viz_words::{FileName, ScriptRefusal, ScriptStop};

/// The words of the command.
#[derive(Clone, Copy, Debug)]
pub struct Replay<'a> {
    /// The journal's name at the desk.
    pub journal: &'a str,
    /// How many of its first entries count.
    pub count: u32,
    /// The node whose file is written.
    pub sink: Word,
    /// The name of that file.
    pub output: FileName,
}

/// How many entries count.
fn entries_at(count: u32, entries: &[JournalEntry]) -> u32
    ensures { result ≡ entries_at count entries.now }
{
    match u32::try_from(entries.len()) {
        Ok(all) => count.min(all),
        Err(_) => count,
    }
}

/// Updates the sink by the first port.
fn serve_entries<P: Port>(
    alloc: Global,
    command: &Replay<'_>,
    entries: &[JournalEntry],
    ports: &mut [P],
) -> Came
    requires few { length (edits_of entries.now) ≤ edit_limit }
    ensures { IsServed P.Port (replay_of command.now) entries.now result ports.old ports.new }
{
    let [port, ..] = ports else {
        return Came::Memory;
    };
    let Ok(net) = network_of(alloc, entries, command.count) else {
        return Came::Memory;
    };
    let at = entries_at(command.count, entries);
    let answer = update_from_scratch(alloc, &net, at, port, &command.sink, command.output.text());
    Came::Updated(answer.line())
}

/// Reads the journal from the desk, and updates the sink on the network of its first entries.
fn serve_over<P: Port>(alloc: Global, command: &Replay<'_>, desk: &mut P, ports: &mut [P]) -> Came
    ensures { IsReplayRun P.Port
        (replay_of command.now) result desk.old desk.new ports.old ports.new }
{
    let bytes = match desk.read(alloc, command.journal) {
        Ok(bytes) => bytes,
        Err(ReadRefusal::Failed) => return Came::Unread,
        Err(ReadRefusal::TooLong(_)) => {
            return Came::Refused {
                line: 0,
                refusal: ScriptRefusal::TooLong,
            };
        }
        Err(ReadRefusal::Memory) => return Came::Memory,
    };
    match read_journal(alloc, bytes.list()) {
        Ok(entries) => {
            nothing_else_is_read();
            drop(bytes);
            serve_entries(alloc, command, &entries, ports)
        }
        Err(ScriptStop::Refused { line, refusal }) => Came::Refused { line, refusal },
        Err(ScriptStop::Memory) => Came::Memory,
    }
}

/// The same over the list of ports. Where there is no port the desk isn't used.
pub fn serve<P: Port>(alloc: Global, command: &Replay<'_>, desk: &mut P, ports: &mut Vec<P>) -> Came
    ensures ran { IsReplayRun P.Port (replay_of command.now) result desk.old desk.new
        ports.old.items ports.new.items }
    ensures no_port { ports.old.items ≡ [] → result ≡ Came.NoPort }
{
    if ports.is_empty() {
        return Came::NoPort;
    }
    serve_over(alloc, command, desk, ports.as_mut_slice())
}
