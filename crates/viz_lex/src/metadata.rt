//! The lines of METADATA.

ghost use Rattle.std.specs.Prelude.{◌≡◌, ◌≤◌, length};
ghost use Rattle.viz_lex.specs.Passing.{empty_line, metadata_len};

use crate::scan::line_len;

/// How long the empty line in front is with its newline: 0 where none stands there.
fn empty_line(text: &[u8]) -> usize
    ensures value { result ≡ empty_line text.now }
    ensures within { result ≤ length text.now }
{
    match text {
        [b'\n', ..] => 1,
        [b'\r', b'\n', ..] => 2,
        _ => 0,
    }
}

/// How long the rest of a line and the lines behind it are, up to and with the first empty one.
pub(crate) fn metadata_len(text: &[u8]) -> usize
    ensures value { result ≡ metadata_len text.now }
    ensures within { result ≤ length text.now }
{
    let mut at = 0;
    while let Some(len) = line_len(&text[at..]) {
        at += len + 1;
        let empty = empty_line(&text[at..]);
        if empty > 0 {
            return at + empty;
        }
    }
    text.len()
}
