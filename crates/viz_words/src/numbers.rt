//! Numbers of words.

ghost use Rattle.std.specs.Prelude.{◌≡◌, ◌-◌, ◌^◌, ◌≤◌, pos, neg_ℤ, min, length, option_map, IfOk};
ghost use Rattle.viz_lex.specs.Numbers.{is_digit, natural_of};
ghost use Rattle.viz_words.specs.Numbers.{within, number_of, natural_in};

use crate::refusal::ScriptRefusal;

fn is_digit(b: u8) -> bool
    ensures { result ≡ is_digit b }
{
    matches!(b, b'0'..=b'9')
}

/// The number of any digits, but at most the largest without a sign that 64 bits have.
fn digits(text: &[u8]) -> Option<u64>
    ensures value { result ≡ option_map (λ n. min n (2 ^ 64 - 1)) (natural_of text.now) }
{
    let mut n: u64 = 0;
    for b in text {
        if !is_digit(*b) {
            return None;
        }
        n = n.saturating_mul(10).saturating_add(u64::from(*b - b'0'));
    }
    if text.is_empty() { None } else { Some(n) }
}

/// The number below zero of this size.
fn negated(n: u64) -> i64
    requires { n ≤ 2 ^ 63 }
    ensures { result ≡ neg_ℤ (pos n) }
{
    if n == 0 { 0 } else { -((n - 1) as i64) - 1 }
}

fn negative(text: &[u8]) -> Option<i64>
    ensures { result ≡ within (option_map (λ n. neg_ℤ (pos n)) (natural_of text.now)) }
{
    match digits(text) {
        Some(n) if n <= 1 << 63 => Some(negated(n)),
        _ => None,
    }
}

fn positive(text: &[u8]) -> Option<i64>
    ensures { result ≡ within (option_map (λ n. pos n) (natural_of text.now)) }
{
    match digits(text) {
        Some(n) if n < 1 << 63 => Some(n as i64),
        _ => None,
    }
}

/// The number of a word: an optional minus sign and digits, within 64 bits.
pub fn number(word: &[u8]) -> Option<i64>
    ensures value { result ≡ number_of word.now }
{
    match word {
        [b'-', digits @ ..] => negative(digits),
        _ => positive(word),
    }
}

/// The number of a word that is due, from `least` to `greatest`.
#[tactic(auto, unfolding(crate::specs::Numbers::natural_in))]
pub fn natural(word: &[u8], least: u32, greatest: u32) -> Result<u32, ScriptRefusal>
    ensures value { result ≡ natural_in least greatest word.now }
    ensures at_least { IfOk result (λ n. least ≤ n) }
    ensures at_most { IfOk result (λ n. n ≤ greatest) }
{
    match number(word) {
        Some(n) if i64::from(least) <= n && n <= i64::from(greatest) => Ok(n as u32),
        _ => Err(ScriptRefusal::Number),
    }
}
