//! Parts of a text: up to the next newline, and the next word.

ghost use Rattle.std.specs.Prelude.{◌≡◌, ◌<◌, ◌≤◌, length, option_map, IfSome, ◌&&◌, ◌||◌, ◌==◌};
ghost use Rattle.viz_words.specs.Lines.{line_len};
ghost use Rattle.viz_words.specs.Words.{is_gap, words_of};
ghost use Rattle.viz_words.specs.Steps.Scans.{trimmed, gaps, word_len, parted};

fn is_gap(b: u8) -> bool
    ensures { result ≡ is_gap b }
{
    b == b' ' || b == b'\t'
}

/// The place of the first newline.
pub fn line_len(text: &[u8]) -> Option<usize>
    ensures value { result ≡ line_len text.now }
    ensures within { IfSome result (λ len. len < length text.now) }
{
    for (i, b) in text.iter().enumerate() {
        if *b == b'\n' {
            return Some(i);
        }
    }
    None
}

/// The line without a carriage return at its end.
pub(crate) fn trimmed(line: &[u8]) -> &[u8]
    ensures { result.now ≡ trimmed line.now }
{
    let len = line.len();
    if len > 0 && line[len - 1] == b'\r' {
        &line[..len - 1]
    } else {
        line
    }
}

/// How many spaces and tabs stand in front.
fn gaps(text: &[u8]) -> usize
    ensures value { result ≡ gaps text.now }
    ensures within { result ≤ length text.now }
{
    for (i, b) in text.iter().enumerate() {
        if !is_gap(*b) {
            return i;
        }
    }
    text.len()
}

/// How long the word in front is.
fn word_len(text: &[u8]) -> usize
    ensures value { result ≡ word_len text.now }
    ensures within { result ≤ length text.now }
{
    for (i, b) in text.iter().enumerate() {
        if is_gap(*b) {
            return i;
        }
    }
    text.len()
}

/// The first word of a line and what stands behind it; None where there is no word.
pub fn next_word(text: &[u8]) -> Option<(&[u8], &[u8])>
    ensures words { words_of text.now
        ≡ parted words_of (option_map (λ x. (x.0.now, x.1.now)) result) }
    ensures shorter { IfSome result (λ x. length x.1.now < length text.now) }
{
    let rest = &text[gaps(text)..];
    let len = word_len(rest);
    if len == 0 {
        return None;
    }
    Some((&rest[..len], &rest[len..]))
}
