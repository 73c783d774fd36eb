//! Lines of a script.

ghost use Rattle.std.specs.Prelude.{◌≡◌, ◌<◌, length, option_map, IfSome};
ghost use Rattle.viz_words.specs.Lines.{is_plain_byte, is_plain, lines_of};
ghost use Rattle.viz_words.specs.Words.{is_skipped};
ghost use Rattle.viz_words.specs.Steps.Scans.{parted};

use crate::scan::{line_len, next_word, trimmed};

fn is_plain_byte(b: u8) -> bool
    ensures { result ≡ is_plain_byte b }
{
    b == b'\t' || (32 <= b && b <= 126)
}

/// Whether each byte of the line may stand in a script.
pub fn is_plain(line: &[u8]) -> bool
    ensures value { result ≡ is_plain line.now }
{
    line.iter().all(|b| is_plain_byte(*b))
}

/// Whether the line says nothing: it has no word, or begins with `#`.
pub fn is_skipped(line: &[u8]) -> bool
    ensures value { result ≡ is_skipped line.now }
{
    if let [b'#', ..] = line {
        return true;
    }
    next_word(line).is_none()
}

/// The first line without its end and what stands behind it; None at the end of the text.
pub fn next_line(text: &[u8]) -> Option<(&[u8], &[u8])>
    ensures lines { lines_of text.now
        ≡ parted lines_of (option_map (λ x. (x.0.now, x.1.now)) result) }
    ensures shorter { IfSome result (λ x. length x.1.now < length text.now) }
{
    if text.is_empty() {
        return None;
    }
    match line_len(text) {
        Some(len) => Some((trimmed(&text[..len]), &text[len + 1..])),
        None => Some((text, &text[text.len()..])),
    }
}
