//! A script read, served and kept.

ghost use Rattle.std.specs.Prelude.{◌≡◌};
ghost use Rattle.viz_actor.specs.Groups.{actors_over};
ghost use Rattle.viz_actor.specs.Deeds.{IsScriptRun};
ghost use Rattle.viz_actor.specs.DeskServing.{IsKept, IsRanBehind};

use crate::journal::journal_entries;
use crate::ran::Ran;
use crate::script::{Served, serve_script};
use std::alloc::Global;
use std::sync::Wait;
use std::thread::Threads;
use viz_account::{audit_lines_are_closed, lines_count_edits};
use viz_base::{ACTORS, Gate, Items, LongText, Port, ReadRefusal, WriteRefusal};
use viz_entries::Entry;
use viz_journal::journal_text;
use viz_report::Row;
use viz_script::{ScriptRefusal, ScriptStop, parse};

/// How many actors a script may have over these ports.
fn actors<P>(ports: &[P]) -> u32
    ensures { result ≡ actors_over ports.now }
{
    ports.len().min(ACTORS as usize) as u32
}

/// Writes the journal of the history, whose entries these rows tell.
fn keep<P: Port>(
    alloc: Global,
    journal: &str,
    desk: &mut P,
    rows: Vec<Row>,
    history: Vec<Entry>,
) -> Ran
    ensures { IsKept P.Port journal.now rows.items history.items result desk.old desk.new }
{
    let Ok(entries) = journal_entries(alloc, history, &rows) else {
        return Ran::Memory;
    };
    let Ok(text) = journal_text(alloc, &entries) else {
        return Ran::Memory;
    };
    drop(entries);
    let Ok(text) = LongText::of(alloc, text) else {
        return Ran::Memory;
    };
    match desk.write(alloc, journal, &text) {
        Ok(()) => Ran::Served {
            rows: Items::new(rows),
            kept: true,
        },
        Err(WriteRefusal::Failed) => Ran::Served {
            rows: Items::new(rows),
            kept: false,
        },
        Err(WriteRefusal::Memory) => Ran::Memory,
    }
}

/// Serves the script of these bytes, and writes its journal.
fn serve_bytes<R: Threads + Wait + Sync, P: Port + Send + Drop, G: Gate + Sync>(
    rt: &R,
    alloc: Global,
    bytes: &[u8],
    journal: &str,
    desk: &mut P,
    ports: &mut Vec<P>,
    gate: &G,
) -> Ran
    ensures { IsRanBehind P.Port bytes.now journal.now result desk.old desk.new ports.old.items
        ports.new.items }
{
    audit_lines_are_closed::<P>();
    lines_count_edits::<P>();
    let script = match parse(alloc, bytes, actors(ports)) {
        Ok(script) => script,
        Err(ScriptStop::Refused { line, refusal }) => return Ran::Refused { line, refusal },
        Err(ScriptStop::Memory) => return Ran::Memory,
    };
    let Ok(Served { rows, history }) = serve_script(rt, alloc, &script.steps, ports, gate) else {
        return Ran::Memory;
    };
    keep(alloc, journal, desk, rows, history)
}

/// Reads the script, serves its commands by the ports, and writes the journal.
pub fn serve<R: Threads + Wait + Sync, P: Port + Send + Drop, G: Gate + Sync>(
    rt: &R,
    alloc: Global,
    script: &str,
    journal: &str,
    desk: &mut P,
    ports: &mut Vec<P>,
    gate: &G,
) -> Ran
    ensures { IsScriptRun P.Port script.now journal.now result desk.old desk.new ports.old.items
        ports.new.items }
{
    let bytes = match desk.read(alloc, script) {
        Ok(bytes) => bytes,
        Err(ReadRefusal::Failed) => return Ran::Unread,
        Err(ReadRefusal::TooLong(_)) => {
            return Ran::Refused {
                line: 0,
                refusal: ScriptRefusal::TooLong,
            };
        }
        Err(ReadRefusal::Memory) => return Ran::Memory,
    };
    serve_bytes(rt, alloc, bytes.list(), journal, desk, ports, gate)
}
