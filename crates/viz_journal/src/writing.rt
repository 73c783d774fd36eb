//! The text of a journal.

ghost use Rattle.std.specs.Prelude.{◌≡◌, ◌++◌, ◌≤◌, ◌∷◌, [], map, take, length, OnOk, IfOk};
ghost use Rattle.std.specs.List.{flat_map};
ghost use Rattle.std.specs.Fmt.{decimal, signed_decimal};
ghost use Rattle.viz_words.specs.Words.{behind_space, spaced};
ghost use Rattle.viz_journal.specs.Journal.{value_words, edit_line, file_text, edit_text};
ghost use Rattle.viz_journal.specs.Journal.{batch_line, lead, entry_text, last_line, journal};
ghost use Rattle.viz_journal.specs.declared.version.Version.TheVariants.{Two};

use crate::entry::JournalEntry;
use crate::version::{Version, first_line};
use std::alloc::{AllocError, Global};
use viz_base::Bytes;
use viz_lex::put_whole;
use viz_network::{Edit, Value};
use viz_words::{Command, command_word, kind_word, param_word};

/// So many bytes are reserved for a line.
const LINE_ROOM: usize = 64;

/// Adds a space and a word.
fn put_word(text: &mut Vec<u8>, word: &[u8]) -> Result<(), AllocError>
    ensures { OnOk result (text.new.items ≡ text.old.items ++ behind_space word.now) }
{
    text.push(b' ')?;
    text.extend_from_slice(word)
}

/// Adds a space and a number.
fn put_number(text: &mut Vec<u8>, n: &i64) -> Result<(), AllocError>
    ensures { OnOk result (text.new.items ≡ text.old.items ++ behind_space (signed_decimal n.now)) }
{
    text.push(b' ')?;
    put_whole(text, i128::from(*n))
}

/// Adds numbers, each behind a space.
fn put_numbers(text: &mut Vec<u8>, numbers: &[i64]) -> Result<(), AllocError>
    ensures { OnOk result (text.new.items
        ≡ text.old.items ++ flat_map behind_space (map signed_decimal numbers.now)) }
{
    for n in numbers {
        put_number(text, n)?;
    }
    Ok(())
}

/// The first of the numbers.
fn firsts(numbers: &[i64], count: usize) -> &[i64]
    ensures { result.now ≡ take count numbers.now }
{
    if count <= numbers.len() {
        &numbers[..count]
    } else {
        numbers
    }
}

/// Adds the words of a value.
fn put_value(text: &mut Vec<u8>, value: &Value) -> Result<(), AllocError>
    ensures { OnOk result (text.new.items
        ≡ text.old.items ++ flat_map behind_space (value_words value.now)) }
{
    match value {
        Value::Numbers { count, items } => { put_numbers(text, firsts(items, usize::from(*count))) }
        Value::Text(word) => put_word(text, word.bytes()),
    }
}

/// Adds the line of an edit, without its newline.
pub(crate) fn put_edit_line(text: &mut Vec<u8>, edit: &Edit) -> Result<(), AllocError>
    ensures { OnOk result (text.new.items ≡ text.old.items ++ edit_line edit.now) }
{
    match edit {
        Edit::Add { kind, node } => {
            text.extend_from_slice(command_word(Command::Add))?;
            put_word(text, kind_word(*kind))?;
            put_word(text, node.bytes())
        }
        Edit::Remove { node } => {
            text.extend_from_slice(command_word(Command::Remove))?;
            put_word(text, node.bytes())
        }
        Edit::Connect { from, to, port } => {
            text.extend_from_slice(command_word(Command::Connect))?;
            put_word(text, from.bytes())?;
            put_word(text, to.bytes())?;
            put_number(text, &i64::from(*port))
        }
        Edit::Disconnect { to, port } => {
            text.extend_from_slice(command_word(Command::Disconnect))?;
            put_word(text, to.bytes())?;
            put_number(text, &i64::from(*port))
        }
        Edit::Set { node, param, value } => {
            text.extend_from_slice(command_word(Command::Set))?;
            put_word(text, node.bytes())?;
            put_word(text, param_word(*param))?;
            put_value(text, value)
        }
        Edit::Load { node, file } => {
            text.extend_from_slice(command_word(Command::Load))?;
            put_word(text, node.bytes())?;
            put_len(text, file.get().list())
        }
    }
}

/// Adds a space and the number of the bytes.
fn put_len(text: &mut Vec<u8>, file: &[u8]) -> Result<(), AllocError>
    ensures { OnOk result (text.new.items
        ≡ text.old.items ++ behind_space (decimal (length file.now))) }
{
    text.push(b' ')?;
    put_whole(text, file.len() as i128)
}

/// Adds a number and behind a space another one.
fn put_two(text: &mut Vec<u8>, a: u32, b: u32) -> Result<(), AllocError>
    ensures { OnOk result (text.new.items
        ≡ text.old.items ++ spaced (decimal a ∷ decimal b ∷ [])) }
{
    put_whole(text, i128::from(a))?;
    put_number(text, &i64::from(b))
}

/// Adds what stands in front of an edit on its line in version 1.
pub(crate) fn put_lead(text: &mut Vec<u8>, actor: u32, count: u32) -> Result<(), AllocError>
    ensures { OnOk result (text.new.items ≡ text.old.items ++ lead actor count) }
{
    put_two(text, actor, count)?;
    text.push(b' ')?;
    Ok(())
}

/// Adds the line in front of a batch, without its newline.
pub(crate) fn put_batch_line(
    text: &mut Vec<u8>,
    actor: u32,
    count: u32,
    edits: u32,
) -> Result<(), AllocError>
    ensures { OnOk result (text.new.items ≡ text.old.items ++ batch_line actor count edits) }
{
    put_two(text, actor, count)?;
    put_number(text, &i64::from(edits))
}

/// Adds the bytes of a load and a newline; nothing of another edit.
fn put_file(text: &mut Vec<u8>, edit: &Edit) -> Result<(), AllocError>
    ensures { OnOk result (text.new.items ≡ text.old.items ++ file_text edit.now) }
{
    if let Edit::Load { file, .. } = edit {
        text.extend_from_slice(file.get().list())?;
        text.push(b'\n')?;
    }
    Ok(())
}

/// Adds an edit: its line, and the bytes of a load.
fn put_edit(text: &mut Vec<u8>, edit: &Edit) -> Result<(), AllocError>
    ensures { OnOk result (text.new.items ≡ text.old.items ++ edit_text edit.now) }
{
    put_edit_line(text, edit)?;
    text.push(b'\n')?;
    put_file(text, edit)
}

/// Adds the edits of a batch.
fn put_edits(text: &mut Vec<u8>, edits: &[Edit]) -> Result<(), AllocError>
    ensures { OnOk result (text.new.items ≡ text.old.items ++ flat_map edit_text edits.now) }
{
    for edit in edits {
        put_edit(text, edit)?;
    }
    Ok(())
}

/// Adds an entry: the line of its batch, and its edits.
fn put_entry(text: &mut Vec<u8>, entry: &JournalEntry) -> Result<(), AllocError>
    ensures { OnOk result (text.new.items ≡ text.old.items ++ entry_text Two entry.now) }
{
    let edits = entry.batch.edits();
    put_batch_line(text, entry.actor, entry.count, edits.len() as u32)?;
    text.push(b'\n')?;
    put_edits(text, edits)
}

/// Adds the entries.
fn put_entries(text: &mut Vec<u8>, entries: &[JournalEntry]) -> Result<(), AllocError>
    ensures { OnOk result (text.new.items ≡ text.old.items ++ flat_map (entry_text Two) entries.now) }
{
    for entry in entries {
        put_entry(text, entry)?;
    }
    Ok(())
}

/// Adds the last line, without its newline.
pub(crate) fn put_last(text: &mut Vec<u8>, count: usize) -> Result<(), AllocError>
    ensures { OnOk result (text.new.items ≡ text.old.items ++ last_line count) }
{
    text.extend_from_slice(b"end ")?;
    put_whole(text, count as i128)
}

/// About how many bytes an edit has, with its newline.
fn room_of(edit: &Edit) -> usize {
    match edit {
        Edit::Load { file, .. } => file.get().list().len().saturating_add(LINE_ROOM),
        _ => LINE_ROOM,
    }
}

/// About how many bytes the text has.
fn room_for(entries: &[JournalEntry]) -> usize {
    let mut room = LINE_ROOM;
    for entry in entries {
        room = room.saturating_add(LINE_ROOM);
        for edit in entry.batch.edits() {
            room = room.saturating_add(room_of(edit));
        }
    }
    room
}

/// The text of a journal: its first line, each entry with its edits and the bytes of its loads, and
/// its last line.
pub fn journal_text(alloc: Global, entries: &[JournalEntry]) -> Result<Bytes, AllocError>
    ensures text { IfOk result (λ text. text ≡ journal entries.now) }
{
    let mut text = Vec::with_capacity(alloc, room_for(entries))?;
    text.extend_from_slice(first_line(Version::Two))?;
    put_entries(&mut text, entries)?;
    put_last(&mut text, entries.len())?;
    text.push(b'\n')?;
    Ok(Bytes::new(text))
}
