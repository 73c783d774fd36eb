//! Words passed over by their number, in one pass over the bytes.

ghost use Rattle.std.specs.Prelude.{◌≡◌, ◌<◌, ◌≤◌, ◌+◌, length, false, IfSome, drop, option_map};
ghost use Rattle.viz_lex.specs.Counted.{word_ends, inside_after, passed, words_len};

use crate::scan::is_blank;

/// So many bytes are counted at once.
const CHUNK: usize = 4096;

/// How many words end at a blank of the text, and whether one is open at its end: without a
/// branch, so that many bytes are counted at once.
fn count_word_ends(inside: bool, text: &[u8]) -> (u64, bool)
    ensures count { result.0 ≡ word_ends inside text.now }
    ensures few { result.0 ≤ length text.now }
    ensures open { result.1 ≡ inside_after inside text.now }
{
    let mut count: u64 = 0;
    let mut open = inside;
    for b in text {
        let blank = is_blank(*b);
        count += u64::from(blank & open);
        open = !blank;
    }
    (count, open)
}

/// The end of the last of so many words, the first of them open in front of the text or not.
fn pass_from(inside: bool, text: &[u8], count: u64) -> Option<usize>
    requires { 0 < count }
    ensures value { result ≡ passed inside count text.now }
    ensures within { IfSome result (λ n. n ≤ length text.now) }
{
    let mut left = count;
    let mut open = inside;
    for (i, b) in text.iter().enumerate() {
        let blank = is_blank(*b);
        if blank && open {
            if left == 1 {
                return Some(i);
            }
            left -= 1;
        }
        open = !blank;
    }
    if open && left == 1 {
        Some(text.len())
    } else {
        None
    }
}

// The same by chunks of this size: only the chunk in which the last word ends is looked at twice.
fn pass_by(size: usize, text: &[u8], count: u64) -> Option<usize>
    requires size { 0 < size }
    requires some { 0 < count }
    ensures value { result ≡ passed false count text.now }
    ensures within { IfSome result (λ n. n ≤ length text.now) }
{
    let mut at = 0;
    let mut left = count;
    let mut inside = false;
    while text.len() - at >= size {
        let (n, open) = count_word_ends(inside, &text[at..at + size]);
        if n >= left {
            break;
        }
        left -= n;
        inside = open;
        at += size;
    }
    let end = pass_from(inside, &text[at..], left)?;
    Some(at + end)
}

/// How long the next so many words are, with the blanks in front of each.
#[tactic(auto, unfolding(crate::specs::Counted::words_len))]
pub(crate) fn words_len(text: &[u8], count: u64) -> Option<usize>
    ensures value { result ≡ words_len count text.now }
    ensures within { IfSome result (λ len. len ≤ length text.now) }
{
    if count == 0 {
        return Some(0);
    }
    pass_by(CHUNK, text, count)
}
