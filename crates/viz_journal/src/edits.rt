//! The edits that lines of a journal say.

ghost use Rattle.std.specs.Prelude.{◌≡◌, ◌+◌, ◌<◌, ◌≤◌, ◌++◌, length, IfOk};
ghost use Rattle.viz_kinds.specs.Values.{is_text};
ghost use Rattle.viz_journal.specs.Journal.{edit_line};
ghost use Rattle.viz_journal.specs.Entries.{edit_limit};
ghost use Rattle.viz_journal.specs.Steps.Kept.{edits_in, IsKept, Adds, GoesOn, GoesThrough};

use crate::draft::{Draft, draft_of};
use crate::ledger::{Ledger, add};
use crate::part::{edit_of, is_closed, is_there, part_of, rest_of};
use crate::writing::put_edit_line;
use std::alloc::{AllocError, Global};
use viz_network::{ApplyStop, Edit};
use viz_words::{ScriptRefusal, ScriptStop};

/// Whether the line is that of the edit, as it is written, behind the text.
fn is_line(text: &mut Vec<u8>, edit: &Edit, line: &[u8]) -> Result<bool, AllocError>
    ensures { IfOk result (λ same. same
        ≡ is_text line.now (text.old.items ++ edit_line edit.now)) }
{
    put_edit_line(text, edit)?;
    Ok(line == text.as_slice())
}

/// Adds the edit that was told to the batch, or gives its first refusal. The text has what
/// stands in front of the edit on its line.
#[tactic(auto, unfolding(crate::specs::Edits::edit_at))]
pub(crate) fn add_told(
    alloc: Global,
    ledger: &mut Ledger,
    text: &mut Vec<u8>,
    draft: Draft,
    line: &[u8],
    ended: bool,
    rest: &[u8],
) -> Result<Result<(), ScriptRefusal>, AllocError>
    requires kept { IsKept ledger.old }
    requires few { length (edits_in ledger.old) < edit_limit }
    ensures { IfOk result (λ done. Adds done ledger.old text.old.items
        (record { line = line.now; ended = ended; rest = rest.now }) draft ledger.new) }
{
    if !is_there(&draft, rest) {
        return Ok(Err(ScriptRefusal::Number));
    }
    if !is_closed(&draft, rest) {
        return Ok(Err(ScriptRefusal::Word));
    }
    let edit = edit_of(alloc, draft, rest)?;
    let same = is_line(text, &edit, line)?;
    if !(ended && same) {
        return Ok(Err(ScriptRefusal::Word));
    }
    match add(ledger, edit) {
        Ok(()) => Ok(Ok(())),
        Err(ApplyStop::Refused(_)) => Ok(Err(ScriptRefusal::Edit)),
        Err(ApplyStop::Memory) => Err(AllocError),
    }
}

/// Adds the edit of the line in front, which has this number, to the batch. Gives what stands
/// behind it.
fn add_line<'a>(
    alloc: Global,
    ledger: &mut Ledger,
    text: &mut Vec<u8>,
    number: u32,
    bytes: &'a [u8],
) -> Result<&'a [u8], ScriptStop>
    requires kept { IsKept ledger.old }
    requires few { length (edits_in ledger.old) < edit_limit }
    ensures { GoesOn (λ x. x.now) result number ledger.old bytes.now ledger.new }
{
    let (line, ended, rest) = part_of(bytes);
    let draft = match draft_of(line) {
        Ok(draft) => draft,
        Err(refusal) => {
            return Err(ScriptStop::Refused {
                line: number,
                refusal,
            });
        }
    };
    let left = rest_of(&draft, rest);
    text.clear();
    match add_told(alloc, ledger, text, draft, line, ended, rest)? {
        Ok(()) => Ok(left),
        Err(refusal) => Err(ScriptStop::Refused {
            line: number,
            refusal,
        }),
    }
}

/// Adds the edits of so many lines, the first of which has this number, to the batch. Gives
/// what stands behind them.
pub(crate) fn add_lines<'a>(
    alloc: Global,
    ledger: &mut Ledger,
    text: &mut Vec<u8>,
    first: u32,
    count: u32,
    bytes: &'a [u8],
) -> Result<&'a [u8], ScriptStop>
    requires kept { IsKept ledger.old }
    requires room { length (edits_in ledger.old) + count ≤ edit_limit }
    requires within { first + count < 4294967296 }
    ensures { GoesThrough (λ x. x.now) result count first ledger.old bytes.now ledger.new }
{
    ledger.batch.reserve_exact(count as usize)?;
    let mut rest = bytes;
    for i in 0..count {
        match add_line(alloc, ledger, text, first + i, rest) {
            Ok(left) => rest = left,
            Err(stop) => return Err(stop),
        }
    }
    Ok(rest)
}
