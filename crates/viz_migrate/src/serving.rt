//! A journal read, and written anew.

ghost use Rattle.std.specs.Prelude.{◌≡◌, IfOk};
ghost use Rattle.viz_journal.specs.Journal.{journal};
ghost use Rattle.viz_migrate.specs.Migrate.{IsPortRun, IsMigrateRun};
ghost use Rattle.viz_migrate.specs.Views.{migrate_view, IsEndOfWrite};

use crate::came::Came;
use std::alloc::{AllocError, Global};
use viz_base::{LongText, Port, ReadRefusal, WriteRefusal};
use viz_journal::{JournalEntry, journal_text, read_journal};
use viz_words::{ScriptRefusal, ScriptStop};

/// The words of the command.
#[derive(Clone, Copy, Debug)]
pub struct Migrate<'a> {
    /// The journal's name at the desk.
    pub journal: &'a str,
    /// The name of the file that is written by the first port.
    pub output: &'a str,
}

/// The journal of these entries.
fn text_of(alloc: Global, entries: &[JournalEntry]) -> Result<LongText, AllocError>
    ensures { IfOk result (λ text. text ≡ journal entries.now) }
{
    LongText::of(alloc, journal_text(alloc, entries)?)
}

/// Writes the journal of these entries, with one call.
fn write_entries<P: Port>(
    alloc: Global,
    command: &Migrate<'_>,
    entries: Vec<JournalEntry>,
    port: &mut P,
) -> Came
    ensures { IsEndOfWrite P.Port (migrate_view command.now) entries.items result
        port.old port.new }
{
    let count = entries.len() as u64;
    let Ok(text) = text_of(alloc, &entries) else {
        return Came::Memory;
    };
    drop(entries);
    match port.write(alloc, command.output, &text) {
        Ok(()) => Came::Migrated(count),
        Err(WriteRefusal::Failed) => Came::Unwritten,
        Err(WriteRefusal::Memory) => Came::Memory,
    }
}

/// Reads the journal from the desk, and writes its entries by the port.
fn serve_port<P: Port>(alloc: Global, command: &Migrate<'_>, desk: &mut P, port: &mut P) -> Came
    ensures { IsPortRun P.Port (migrate_view command.now) result desk.old desk.new
        port.old port.new }
{
    let bytes = match desk.read(alloc, command.journal) {
        Ok(bytes) => bytes,
        Err(ReadRefusal::Failed) => return Came::Unread,
        Err(ReadRefusal::TooLong(_)) => {
            return Came::Refused {
                line: 0,
                refusal: ScriptRefusal::TooLong,
            };
        }
        Err(ReadRefusal::Memory) => return Came::Memory,
    };
    match read_journal(alloc, bytes.list()) {
        Ok(entries) => {
            drop(bytes);
            write_entries(alloc, command, entries, port)
        }
        Err(ScriptStop::Refused { line, refusal }) => Came::Refused { line, refusal },
        Err(ScriptStop::Memory) => Came::Memory,
    }
}

/// The same by the first port. Where there is none the desk isn't used.
fn serve_over<P: Port>(alloc: Global, command: &Migrate<'_>, desk: &mut P, ports: &mut [P]) -> Came
    ensures { IsMigrateRun P.Port (migrate_view command.now) result desk.old desk.new
        ports.old ports.new }
{
    match ports {
        [] => Came::NoPort,
        [port, ..] => serve_port(alloc, command, desk, port),
    }
}

/// The same over the list of ports.
pub fn serve<P: Port>(
    alloc: Global,
    command: &Migrate<'_>,
    desk: &mut P,
    ports: &mut Vec<P>,
) -> Came
    ensures { IsMigrateRun P.Port (migrate_view command.now) result desk.old desk.new
        ports.old.items ports.new.items }
{
    serve_over(alloc, command, desk, ports.as_mut_slice())
}
