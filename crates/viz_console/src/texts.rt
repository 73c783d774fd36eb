//! The text of answers, put one at a time.

ghost use Rattle.std.specs.Prelude.{◌≡◌, ◌≤◌, ◌++◌, OnOk};
ghost use Rattle.viz_console.specs.Replies.{bad_text, told_behind, told_text};
ghost use Rattle.viz_console.specs.Steps.Serving.{Puts};

use crate::ending::End;
use std::alloc::{AllocError, Global};
use viz_base::{Out, WriteRefusal};
use viz_report::{Line, put_behind, put_number, word_of};
use viz_words::{ScriptRefusal, refusal_word};

// Adds that the line of this number is bad.
#[tactic(auto, unfolding(crate::specs::Replies::bad_text))]
fn add_bad(text: &mut Vec<u8>, line: u64, refusal: &ScriptRefusal) -> Result<(), AllocError>
    ensures { OnOk result (text.new.items ≡ text.old.items ++ bad_text line refusal.now) }
{
    put_number(text, b"bad ", line)?;
    text.push(b' ')?;
    text.extend_from_slice(refusal_word(refusal).as_bytes())?;
    text.push(b'\n')?;
    Ok(())
}

// Adds what stands behind the number of a command. Of a file it is told no number of nodes.
fn add_behind(text: &mut Vec<u8>, line: &Line) -> Result<(), AllocError>
    ensures { OnOk result (text.new.items ≡ text.old.items ++ told_behind line.now) }
{
    match line {
        Line::File {
            at,
            cells,
            points,
            ..
        } => {
            put_number(text, b" at ", u64::from(*at))?;
            put_number(text, b" cells ", *cells)?;
            put_number(text, b" points ", *points)?;
            Ok(())
        }
        _ => put_behind(text, line),
    }
}

// Adds the line of the command of this number.
#[tactic(auto, unfolding(crate::specs::Replies::told_text))]
fn add_told(text: &mut Vec<u8>, number: u64, line: &Line) -> Result<(), AllocError>
    ensures { OnOk result (text.new.items ≡ text.old.items ++ told_text number line.now) }
{
    text.extend_from_slice(word_of(line).as_bytes())?;
    put_number(text, b" ", number)?;
    add_behind(text, line)?;
    text.push(b'\n')?;
    Ok(())
}

// Puts a text, and says how the session ends where it isn't put.
fn put<O: Out>(alloc: Global, out: &mut O, text: &[u8]) -> Option<End>
    ensures puts { Puts O.Out text.now result out.old out.new }
    ensures later { O.faults out.old ≤ O.faults out.new }
{
    match out.put(alloc, text) {
        Ok(()) => None,
        Err(WriteRefusal::Failed) => Some(End::Fault),
        Err(WriteRefusal::Memory) => Some(End::Memory),
    }
}

/// Puts that the line of this number is bad. `text` is room for the answer.
pub fn tell_bad<O: Out>(
    alloc: Global,
    out: &mut O,
    text: &mut Vec<u8>,
    line: u64,
    refusal: &ScriptRefusal,
) -> Option<End>
    ensures puts { Puts O.Out (bad_text line refusal.now) result out.old out.new }
    ensures later { O.faults out.old ≤ O.faults out.new }
{
    text.clear();
    match add_bad(text, line, refusal) {
        Ok(()) => put(alloc, out, text),
        Err(_) => Some(End::Memory),
    }
}

/// Puts the line of the command of this number. `text` is room for the answer.
pub fn tell_line<O: Out>(
    alloc: Global,
    out: &mut O,
    text: &mut Vec<u8>,
    number: u64,
    line: &Line,
) -> Option<End>
    ensures puts { Puts O.Out (told_text number line.now) result out.old out.new }
    ensures later { O.faults out.old ≤ O.faults out.new }
{
    text.clear();
    match add_told(text, number, line) {
        Ok(()) => put(alloc, out, text),
        Err(_) => Some(End::Memory),
    }
}
