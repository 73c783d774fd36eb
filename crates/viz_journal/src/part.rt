//! A line, and the bytes behind it.

ghost use Rattle.std.specs.Prelude.{◌≡◌, ◌≤◌, ◌<◌, IfOk, ◌^◌, length, take, drop};
ghost use Rattle.viz_words.specs.Lines.{begins_newline};
ghost use Rattle.viz_journal.specs.Lines.{size};
ghost use Rattle.viz_journal.specs.Parts.{Part, part_of, is_there, has_bytes, is_closed};
ghost use Rattle.viz_journal.specs.Parts.{rest_of, edit_of};

use crate::draft::Draft;
use std::alloc::{AllocError, Global};
use viz_base::{Bytes, Shared};
use viz_network::Edit;
use viz_words::line_len;

/// The first line, whether a newline ends it, and the bytes behind it.
pub(crate) fn part_of(text: &[u8]) -> (&[u8], bool, &[u8])
    ensures value { part_of text.now
        ≡ record { line = result.0.now; ended = result.1; rest = result.2.now } }
    ensures shorter { 0 < length text.now → length result.2.now < length text.now }
    ensures within { length result.2.now ≤ length text.now }
{
    match line_len(text) {
        Some(len) => (&text[..len], true, &text[len + 1..]),
        None => (text, false, &text[text.len()..]),
    }
}

/// The number of bytes that a load tells.
fn size(len: &i64) -> usize
    ensures value { result ≡ size len.now }
    ensures within { result < 2 ^ 63 }
{
    if *len <= 0 { 0 } else { *len as usize }
}

/// The first bytes, at most so many.
pub(crate) fn front(bytes: &[u8], count: usize) -> &[u8]
    ensures { result.now ≡ take count bytes.now }
{
    if count <= bytes.len() {
        &bytes[..count]
    } else {
        bytes
    }
}

/// The bytes behind the first.
pub(crate) fn behind(bytes: &[u8], count: usize) -> &[u8]
    ensures value { result.now ≡ drop count bytes.now }
    ensures shorter { length result.now ≤ length bytes.now }
{
    if count <= bytes.len() {
        &bytes[count..]
    } else {
        &bytes[bytes.len()..]
    }
}

/// Whether the bytes of a load are there.
pub(crate) fn is_there(draft: &Draft, rest: &[u8]) -> bool
    ensures { result ≡ is_there draft.now rest.now }
{
    match draft {
        Draft::Edit(_) => true,
        Draft::Load { len, .. } => *len <= 0 || *len as u64 <= rest.len() as u64,
    }
}

/// Whether the edit is a load, which has bytes.
fn has_bytes(edit: &Edit) -> bool
    ensures { result ≡ has_bytes edit.now }
{
    matches!(edit, Edit::Load { .. })
}

/// Whether the edit has no bytes, or a newline stands behind the bytes of a load.
pub(crate) fn is_closed(draft: &Draft, rest: &[u8]) -> bool
    ensures { result ≡ is_closed draft.now rest.now }
{
    match draft {
        Draft::Edit(edit) => !has_bytes(edit),
        Draft::Load { len, .. } => begins_newline(behind(rest, size(len))),
    }
}

fn begins_newline(text: &[u8]) -> bool
    ensures { result ≡ begins_newline text.now }
{
    match text {
        [b, ..] => *b == b'\n',
        [] => false,
    }
}

/// What stands behind the bytes of a load and their newline.
pub(crate) fn rest_of<'a>(draft: &Draft, rest: &'a [u8]) -> &'a [u8]
    ensures value { result.now ≡ rest_of draft.now rest.now }
    ensures shorter { length result.now ≤ length rest.now }
{
    match draft {
        Draft::Edit(_) => rest,
        Draft::Load { len, .. } => behind(rest, size(len) + 1),
    }
}

/// The edit, with the bytes of a load: they are copied once.
pub(crate) fn edit_of(alloc: Global, draft: Draft, rest: &[u8]) -> Result<Edit, AllocError>
    ensures { IfOk result (λ edit. edit ≡ edit_of draft rest.now) }
{
    match draft {
        Draft::Edit(edit) => Ok(edit),
        Draft::Load { node, len } => {
            let file = shared(alloc, front(rest, size(&len)))?;
            Ok(Edit::Load { node, file })
        }
    }
}

fn shared(alloc: Global, bytes: &[u8]) -> Result<Shared<Bytes>, AllocError>
    ensures { IfOk result (λ shared. shared ≡ bytes.now) }
{
    Shared::new(alloc, Bytes::new(Vec::from_slice(alloc, bytes)?))
}
