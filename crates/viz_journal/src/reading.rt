//! The entries of a journal.

ghost use Rattle.std.specs.Prelude.{◌≡◌, ◌<◌, ℕ, List, length, IfOk};
ghost use Rattle.viz_kinds.specs.Values.{is_text};
ghost use Rattle.viz_journal.specs.Journal.{batch_line, last_line};
ghost use Rattle.viz_journal.specs.Entries.{edit_limit};
ghost use Rattle.viz_journal.specs.Reading.{head_at, last_at, read_behind, journal_read, Reads};
ghost use Rattle.viz_journal.specs.Steps.Kept.{IsClosed, Enters, EntersBatch, Goes};

use crate::edits::{add_lines, add_told};
use crate::entry::JournalEntry;
use crate::ledger::{Ledger, close, empty_ledger, entries_in, is_counted};
use crate::line::{Head, Line, Told, line_in};
use crate::part::{behind, front, part_of, rest_of};
use crate::version::{FIRST, Version, version_of};
use crate::writing::{put_batch_line, put_last, put_lead};
use std::alloc::{AllocError, Global};
use viz_words::{ScriptRefusal, ScriptStop};

fn refused(line: u32, refusal: ScriptRefusal) -> ScriptStop
    ensures { result ≡ ScriptStop.Refused line refusal }
{
    ScriptStop::Refused { line, refusal }
}

/// Adds the entry of version 1 that a line tells, or gives its first refusal.
#[tactic(auto, unfolding(crate::specs::Reading::single_at))]
fn take_single(
    alloc: Global,
    ledger: &mut Ledger,
    text: &mut Vec<u8>,
    told: Told,
    line: &[u8],
    ended: bool,
    rest: &[u8],
) -> Result<Result<(), ScriptRefusal>, AllocError>
    requires { IsClosed ledger.old }
    ensures { IfOk result (λ done. Enters done ledger.old
        (record { line = line.now; ended = ended; rest = rest.now }) told ledger.new) }
{
    let Told {
        actor,
        count,
        draft,
    } = told;
    if !is_counted(ledger, actor, count, 1) {
        return Ok(Err(ScriptRefusal::Number));
    }
    text.clear();
    put_lead(text, actor, count)?;
    match add_told(alloc, ledger, text, draft, line, ended, rest)? {
        Ok(()) => {
            close(alloc, ledger, actor, count, 1)?;
            Ok(Ok(()))
        }
        Err(refusal) => Ok(Err(refusal)),
    }
}

/// Whether the line is that in front of a batch, as it is written.
fn is_head(text: &mut Vec<u8>, head: &Head, line: &[u8]) -> Result<bool, AllocError>
    ensures { IfOk result (λ same. same
        ≡ is_text line.now (batch_line head.now.actor head.now.count head.now.edits)) }
{
    text.clear();
    put_batch_line(text, head.actor, head.count, head.edits)?;
    Ok(line == text.as_slice())
}

/// What the line in front of a batch says, or its first refusal.
#[tactic(auto, unfolding(crate::specs::Reading::head_at))]
fn head_at(
    ledger: &Ledger,
    text: &mut Vec<u8>,
    head: Head,
    line: &[u8],
    ended: bool,
) -> Result<Result<Head, ScriptRefusal>, AllocError>
    requires { IsClosed ledger.now }
    ensures { IfOk result (λ done. (rest : List ℕ) → done ≡ head_at ledger.now.entries.items
        (record { line = line.now; ended = ended; rest = rest }) head) }
{
    if !is_counted(ledger, head.actor, head.count, head.edits) {
        return Ok(Err(ScriptRefusal::Number));
    }
    let same = is_head(text, &head, line)?;
    if !(ended && same) {
        return Ok(Err(ScriptRefusal::Word));
    }
    Ok(Ok(head))
}

/// Adds the batch behind a line that tells it. Gives what stands behind its edits.
fn take_batch<'a>(
    alloc: Global,
    ledger: &mut Ledger,
    text: &mut Vec<u8>,
    head: Head,
    line: &[u8],
    ended: bool,
    rest: &'a [u8],
) -> Result<&'a [u8], ScriptStop>
    requires { IsClosed ledger.old }
    ensures { EntersBatch (λ x. x.now) result ledger.old
        (record { line = line.now; ended = ended; rest = rest.now }) head ledger.new }
{
    let number = ledger.line;
    let Head {
        actor,
        count,
        edits,
    } = match head_at(ledger, text, head, line, ended)? {
        Ok(head) => head,
        Err(refusal) => return Err(refused(number, refusal)),
    };
    match add_lines(alloc, ledger, text, number + 1, edits, rest) {
        Ok(left) => {
            close(alloc, ledger, actor, count, edits + 1)?;
            Ok(left)
        }
        Err(stop) => Err(stop),
    }
}

/// Whether the line is the last one behind so many entries, as it is written.
fn is_last(text: &mut Vec<u8>, count: u32, line: &[u8]) -> Result<bool, AllocError>
    ensures { IfOk result (λ same. same ≡ is_text line.now (last_line count)) }
{
    text.clear();
    put_last(text, count as usize)?;
    Ok(line == text.as_slice())
}

/// Whether the last line tells the number of the entries, is spelled as it is written, and ends the
/// journal.
fn end(
    ledger: &Ledger,
    text: &mut Vec<u8>,
    count: u32,
    line: &[u8],
    ended: bool,
    rest: &[u8],
) -> Result<(), ScriptStop>
    requires { IsClosed ledger.now }
    ensures { Reads (λ done. ledger.now.entries.items) result
        (last_at ledger.now.line ledger.now.entries.items
        (record { line = line.now; ended = ended; rest = rest.now }) count) }
{
    let number = ledger.line;
    if count as usize != ledger.entries.len() {
        return Err(refused(number, ScriptRefusal::Number));
    }
    let same = is_last(text, count, line)?;
    if !(ended && same) {
        return Err(refused(number, ScriptRefusal::Word));
    }
    if !rest.is_empty() {
        return Err(refused(number + 1, ScriptRefusal::Word));
    }
    Ok(())
}

/// Takes the line in front and the edits of its batch: gives what stands behind them, or None
/// behind the last line.
fn step<'a>(
    alloc: Global,
    version: Version,
    ledger: &mut Ledger,
    text: &mut Vec<u8>,
    bytes: &'a [u8],
) -> Result<Option<&'a [u8]>, ScriptStop>
    requires closed { IsClosed ledger.old }
    requires some { 0 < length bytes.now }
    ensures { Goes (λ x. x.now) result version ledger.old bytes.now ledger.new }
{
    let (line, ended, rest) = part_of(bytes);
    let number = ledger.line;
    match line_in(version, line) {
        Err(refusal) => Err(refused(number, refusal)),
        Ok(Line::Last(count)) => match end(ledger, text, count, line, ended, rest) {
            Ok(()) => Ok(None),
            Err(stop) => Err(stop),
        },
        Ok(Line::Single(told)) => {
            let left = rest_of(&told.draft, rest);
            match take_single(alloc, ledger, text, told, line, ended, rest)? {
                Ok(()) => Ok(Some(left)),
                Err(refusal) => Err(refused(number, refusal)),
            }
        }
        Ok(Line::Batch(head)) => {
            match take_batch(alloc, ledger, text, head, line, ended, rest) {
                Ok(left) => Ok(Some(left)),
                Err(stop) => Err(stop),
            }
        }
    }
}

/// The entries of the lines behind the first, up to the last line.
fn entries_of(
    alloc: Global,
    version: Version,
    bytes: &[u8],
) -> Result<Vec<JournalEntry>, ScriptStop>
    ensures { Reads (λ entries. entries.items) result (read_behind (Some version) bytes.now) }
{
    let mut ledger = empty_ledger(alloc);
    let mut text = Vec::new(alloc);
    let mut rest = bytes;
    while !rest.is_empty() {
        match step(alloc, version, &mut ledger, &mut text, rest) {
            Ok(Some(left)) => rest = left,
            Ok(None) => return Ok(entries_in(ledger)),
            Err(stop) => return Err(stop),
        }
    }
    Err(refused(ledger.line, ScriptRefusal::Word))
}

/// The entries of a journal of either version. The bytes of a load are copied once, into its edit.
///
/// # Errors
///
/// The refusals of docs/FORMATS-OF-SCRIPTS.md, "Journals": the first refusal of the first line that
/// has one. Want of memory may come in place of a result.
pub fn read_journal(alloc: Global, bytes: &[u8]) -> Result<Vec<JournalEntry>, ScriptStop>
    ensures reads { Reads (λ entries. entries.items) result (journal_read bytes.now) }
{
    match version_of(front(bytes, FIRST)) {
        Some(version) => entries_of(alloc, version, behind(bytes, FIRST)),
        None => Err(refused(1, ScriptRefusal::Word)),
    }
}
