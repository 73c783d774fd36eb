//! The decimal of a word, in billionths.

ghost use Rattle.std.specs.Prelude.{◌≡◌, ◌+◌, ◌-◌, ◌^◌, ◌≤◌, ◌++◌, pos, neg_ℤ, true, min, length};
ghost use Rattle.std.specs.Prelude.{take, drop, option_map, Some, IfSome};
ghost use Rattle.std.specs.List.{list_all};
ghost use Rattle.viz_lex.specs.Numbers.{is_digit, digits_value, natural_of};
ghost use Rattle.viz_lex.specs.Decimals.{is_point, is_letter, first_at, in_front, behind_point};
ghost use Rattle.viz_lex.specs.Decimals.{exponent_of, magnitude_of, decimal_of, limited};
ghost use Rattle.viz_lex.specs.Scaled.{small, scaled, clipped, more_digits};

use crate::number::{is_digit, natural, negated};

/// No decimal has more bytes.
const LONGEST: usize = 64;

/// 10^18, in billionths.
const LIMIT: u128 = 1_000_000_000_000_000_000_000_000_000;

/// No number but 0 times a power of ten above this one lies within the limit.
const HIGHEST_POWER: usize = 27;

/// The digits of a word are too few to make up for an exponent past this one.
const FAR: u128 = 100;

/// Where the letter in front of the exponent stands, or the length where there is none.
fn letter_at(text: &[u8]) -> usize
    ensures value { result ≡ first_at is_letter text.now }
    ensures within { result ≤ length text.now }
{
    for (i, b) in text.iter().enumerate() {
        if *b == b'e' || *b == b'E' {
            return i;
        }
    }
    text.len()
}

/// Where the point stands, or the length where there is none.
fn point_at(text: &[u8]) -> usize
    ensures value { result ≡ first_at is_point text.now }
    ensures within { result ≤ length text.now }
{
    for (i, b) in text.iter().enumerate() {
        if *b == b'.' {
            return i;
        }
    }
    text.len()
}

/// What stands behind the point.
fn behind(text: &[u8], point: usize) -> &[u8]
    requires { point ≤ length text.now }
    ensures { result.now ≡ drop (point + 1) text.now }
{
    if point < text.len() {
        &text[point + 1..]
    } else {
        &[]
    }
}

/// Whether all bytes are digits.
fn all_digits(text: &[u8]) -> bool
    ensures { result ≡ list_all is_digit text.now }
{
    for b in text {
        if !is_digit(*b) {
            return false;
        }
    }
    true
}

/// The same for two texts.
fn are_digits(front: &[u8], back: &[u8]) -> bool
    ensures { result ≡ list_all is_digit (front.now ++ back.now) }
{
    all_digits(front) && all_digits(back)
}

/// The number n with further digits behind its own, but at most the largest that 128 bits have.
fn more_digits(n: u128, digits: &[u8]) -> u128
    ensures { result ≡ min (more_digits n digits.now) (2 ^ 128 - 1) }
{
    let mut all = n;
    for b in digits {
        let digit = u128::from(b.saturating_sub(b'0'));
        all = all.saturating_mul(10).saturating_add(digit);
    }
    all
}

/// The number of the first digits of two texts, one behind the other, but at most the largest that
/// 128 bits have.
fn leading(front: &[u8], back: &[u8], keep: usize) -> u128
    requires { keep ≤ length front.now + length back.now }
    ensures { result
        ≡ min (digits_value (take keep (front.now ++ back.now))) (2 ^ 128 - 1) }
{
    let first = keep.min(front.len());
    more_digits(more_digits(0, &front[..first]), &back[..keep - first])
}

/// A number times a power of ten, where that lies within the limit.
fn raised(n: u128, power: usize) -> Option<u128>
    ensures value { result ≡ small (Some (scaled n power 0)) }
    ensures limit { IfSome result (λ m. m ≤ 10 ^ 27) }
{
    if n == 0 {
        return Some(0);
    }
    if power > HIGHEST_POWER {
        return None;
    }
    let all = n.saturating_mul(10_u128.pow(power as u32));
    if all <= LIMIT { Some(all) } else { None }
}

/// The number of the digits times 10^up / 10^down, truncated, where that lies within the limit:
/// the digits that are truncated away are never read.
fn scaled(front: &[u8], back: &[u8], up: usize, down: usize) -> Option<u128>
    requires short { length front.now + length back.now ≤ LONGEST }
    requires digits { list_all is_digit (front.now ++ back.now) ≡ true }
    ensures value { result ≡ small (Some (scaled (digits_value (front.now ++ back.now)) up down)) }
    ensures limit { IfSome result (λ n. n ≤ 10 ^ 27) }
{
    let count = front.len() + back.len();
    let keep = count.saturating_sub(down.saturating_sub(up));
    raised(leading(front, back, keep), up.saturating_sub(down))
}

/// What the exponent multiplies and divides by, as powers of ten.
fn exponent(text: &[u8]) -> Option<(usize, usize)>
    ensures { result ≡ option_map clipped (exponent_of text.now) }
{
    match text {
        [] => Some((0, 0)),
        [_, b'-', digits @ ..] => Some((0, near(natural(digits)?))),
        [_, b'+', digits @ ..] => Some((near(natural(digits)?), 0)),
        [_, digits @ ..] => Some((near(natural(digits)?), 0)),
    }
}

/// The power of ten of an exponent, past `FAR` no larger.
fn near(n: u128) -> usize
    ensures { result ≡ min n 100 }
{
    n.min(FAR) as usize
}

/// The magnitude of digits with at most one point, times 10^up / 10^down.
fn mantissa(text: &[u8], up: usize, down: usize) -> Option<u128>
    requires short { length text.now ≤ LONGEST }
    requires up_near { up ≤ 100 }
    requires down_near { down ≤ 100 }
    ensures value { result ≡ small (option_map
        (λ m. scaled m (9 + up) (length (behind_point text.now) + down))
        (natural_of (in_front text.now ++ behind_point text.now))) }
    ensures limit { IfSome result (λ n. n ≤ 10 ^ 27) }
{
    let point = point_at(text);
    let front = &text[..point];
    let back = behind(text, point);
    if front.len() + back.len() == 0 {
        return None;
    }
    if !are_digits(front, back) {
        return None;
    }
    scaled(front, back, 9 + up, back.len() + down)
}

/// The magnitude of a decimal without its sign, where it lies within the limit.
fn magnitude(text: &[u8]) -> Option<u128>
    requires { length text.now ≤ LONGEST }
    ensures value { result ≡ small (magnitude_of text.now) }
    ensures limit { IfSome result (λ n. n ≤ 10 ^ 27) }
{
    let stop = letter_at(text);
    let (up, down) = exponent(&text[stop..])?;
    mantissa(&text[..stop], up, down)
}

/// The decimal that stands behind a minus sign.
fn negative(text: &[u8]) -> Option<i128>
    requires { length text.now ≤ LONGEST }
    ensures { result ≡ limited (option_map (λ n. neg_ℤ (pos n)) (magnitude_of text.now)) }
{
    let n = magnitude(text)?;
    Some(negated(n))
}

/// The decimal that stands behind a plus sign, or behind no sign.
fn positive(text: &[u8]) -> Option<i128>
    requires { length text.now ≤ LONGEST }
    ensures { result ≡ limited (option_map (λ n. pos n) (magnitude_of text.now)) }
{
    let n = magnitude(text)?;
    Some(n as i128)
}

/// The decimal of a word, where it is one and lies within the limit.
pub(crate) fn decimal(word: &[u8]) -> Option<i128>
    ensures { result ≡ limited (decimal_of word.now) }
{
    if word.len() > LONGEST {
        return None;
    }
    match word {
        [b'-', rest @ ..] => negative(rest),
        [b'+', rest @ ..] => positive(rest),
        _ => positive(word),
    }
}
