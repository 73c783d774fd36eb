//! The number of a word, in 128 bits.

ghost use Rattle.std.specs.Prelude.{◌≡◌, ◌-◌, ◌^◌, ◌≤◌, pos, neg_ℤ, min, length, option_map};
ghost use Rattle.viz_lex.specs.Numbers.{is_digit, digits_value, natural_of, in_range, number_at};

use crate::fault::{FileFault, FileKind};

/// So many digits fit 64 bits, with room for one more.
const SHORT: usize = 18;

pub(crate) fn is_digit(b: u8) -> bool
    ensures { result ≡ is_digit b }
{
    matches!(b, b'0'..=b'9')
}

/// The number of a few digits.
#[tactic(auto, using(crate::proofs::NumberLemmas::power_small))]
fn short_natural(text: &[u8]) -> Option<u64>
    requires { length text.now ≤ SHORT }
    ensures value { result ≡ natural_of text.now }
{
    let mut n = 0;
    for b in text {
        if !is_digit(*b) {
            return None;
        }
        n = n * 10 + u64::from(*b - b'0');
    }
    if text.is_empty() { None } else { Some(n) }
}

/// The number of any digits, but at most the largest without a sign that 128 bits have.
fn long_natural(text: &[u8]) -> Option<u128>
    ensures value { result ≡ option_map (λ n. min n (2 ^ 128 - 1)) (natural_of text.now) }
{
    let mut n: u128 = 0;
    for b in text {
        if !is_digit(*b) {
            return None;
        }
        n = n.saturating_mul(10).saturating_add(u128::from(*b - b'0'));
    }
    if text.is_empty() { None } else { Some(n) }
}

/// The same, by the short way where the digits are few.
pub(crate) fn natural(text: &[u8]) -> Option<u128>
    ensures value { result ≡ option_map (λ n. min n (2 ^ 128 - 1)) (natural_of text.now) }
{
    if text.len() <= SHORT {
        short_natural(text).map(u128::from)
    } else {
        long_natural(text)
    }
}

/// The number below zero of this size.
pub(crate) fn negated(n: u128) -> i128
    requires { n ≤ 2 ^ 127 }
    ensures { result ≡ neg_ℤ (pos n) }
{
    if n == 0 { 0 } else { -((n - 1) as i128) - 1 }
}

/// The number that stands behind a minus sign.
fn negative(digits: &[u8], place: u64) -> Result<i128, FileFault>
    ensures { result ≡ in_range (option_map (λ n. neg_ℤ (pos n)) (natural_of digits.now)) place }
{
    let kind = match natural(digits) {
        Some(n) if n <= 1 << 127 => return Ok(negated(n)),
        Some(_) => FileKind::ValueRange,
        None => FileKind::Number,
    };
    Err(FileFault { kind, place })
}

/// The number that stands behind a plus sign, or behind no sign.
fn positive(digits: &[u8], place: u64) -> Result<i128, FileFault>
    ensures { result ≡ in_range (option_map (λ n. pos n) (natural_of digits.now)) place }
{
    let kind = match natural(digits) {
        Some(n) if n < 1 << 127 => return Ok(n as i128),
        Some(_) => FileKind::ValueRange,
        None => FileKind::Number,
    };
    Err(FileFault { kind, place })
}

/// The number of a word that starts at `place`.
pub(crate) fn number(word: &[u8], place: u64) -> Result<i128, FileFault>
    ensures { result ≡ number_at word.now place }
{
    match word {
        [b'-', digits @ ..] => negative(digits, place),
        [b'+', digits @ ..] => positive(digits, place),
        _ => positive(word, place),
    }
}
