//! Fractions as fixed-point numbers.
ghost use Rattle.std.specs.Prelude.{◌≡◌, ◌+◌, ◌*◌, ◌/◌, ◌^◌, ◌<◌, ◌≤◌, pos, ◌*ℤ◌, ◌+ℤ◌, ◌-ℤ◌};
ghost use Rattle.std.specs.Prelude.{◌<ℤ◌, ◌≤ℤ◌, ◌↔◌, IfOk, IfSome, IsOk, FitsSigned, unsigned_abs};
ghost use Rattle.std.specs.Int.{w64, int_div_euclid};
ghost use Rattle.viz_fraction.specs.Points.{IsNarrow};
ghost use Rattle.viz_fraction.specs.Decimals.{fixed_of, IsFloor};

use crate::numbers::{as_word, is_word, magnitude};
use crate::points::TooWide;

/// The powers of ten from 10^0 to 10^9.
const POWERS: [u64; 10] = [
    1,
    10,
    100,
    1_000,
    10_000,
    100_000,
    1_000_000,
    10_000_000,
    100_000_000,
    1_000_000_000,
];

/// A number below this has a product with 10^9 below 2^128.
const SMALL: u128 = 1 << 98;

/// The fraction n / w with `k` decimal places, rounded down, as a whole number of the last place.
///
/// # Errors
///
/// `TooWide` exactly where that number leaves 64 bits.
pub fn fixed(n: i128, w: i128, k: u8) -> Result<i64, TooWide>
    requires positive { pos 0 <ℤ w }
    requires narrow_n { IsNarrow n }
    requires narrow_w { IsNarrow w }
    requires places { k ≤ 9 }
    ensures value { IfOk result (λ m. m ≡ fixed_of n w k) }
    ensures succeeds { IsOk result ↔ FitsSigned w64 (fixed_of n w k) }
{
    fixed_at(&n, &w, k)
}

/// The same of numbers that are lent.
fn fixed_at(n: &i128, w: &i128, k: u8) -> Result<i64, TooWide>
    requires positive { pos 0 <ℤ w.now }
    requires narrow_n { IsNarrow n.now }
    requires narrow_w { IsNarrow w.now }
    requires places { k ≤ 9 }
    ensures value { IfOk result (λ m. m ≡ fixed_of n.now w.now k) }
    ensures succeeds { IsOk result ↔ FitsSigned w64 (fixed_of n.now w.now k) }
{
    if is_word(n) && is_word(w) {
        if let Some(places) = short_fixed(&as_word(n), &as_word(w), k) {
            return Ok(places);
        }
    }
    long_fixed(n, w, k)
}

/// The same of numbers of 64 bits, where the numerator at `k` places fits 64 bits too.
fn short_fixed(n: &i64, w: &i64, k: u8) -> Option<i64>
    requires positive { pos 0 <ℤ w.now }
    requires places { k ≤ 9 }
    ensures { IfSome result (λ m. m ≡ fixed_of n.now w.now k) }
{
    let product = at_places(n, k)?;
    Some(quotient_down(&product, w))
}

/// A number counted in the last of `k` decimal places, where it fits 64 bits.
fn at_places(n: &i64, k: u8) -> Option<i64>
    requires { k ≤ 9 }
    ensures { IfSome result (λ m. m ≡ n.now *ℤ pos (10 ^ k)) }
{
    n.checked_mul(power(k) as i64)
}

/// The floor of a quotient.
fn quotient_down(product: &i64, w: &i64) -> i64
    requires { pos 0 <ℤ w.now }
    ensures { result ≡ int_div_euclid product.now w.now }
{
    product.div_euclid(*w)
}

/// The same of any numbers.
#[inline(never)]
fn long_fixed(n: &i128, w: &i128, k: u8) -> Result<i64, TooWide>
    requires positive { pos 0 <ℤ w.now }
    requires narrow_n { IsNarrow n.now }
    requires narrow_w { IsNarrow w.now }
    requires places { k ≤ 9 }
    ensures value { IfOk result (λ m. m ≡ fixed_of n.now w.now k) }
    ensures succeeds { IsOk result ↔ FitsSigned w64 (fixed_of n.now w.now k) }
{
    let whole = floor(n, w);
    let rest = rest_of(n, w, &whole);
    let places = fraction(rest, magnitude(w), k);
    let whole = word(&whole)?;
    word(&joined(&whole, k, places))
}

/// The floor of a fraction.
pub(crate) fn floor(n: &i128, w: &i128) -> i128
    requires positive { pos 0 <ℤ w.now }
    requires narrow { IsNarrow n.now }
    ensures { IsFloor n.now w.now result }
{
    n.div_euclid(*w)
}

/// A number without the whole times its divisor.
fn rest_of(n: &i128, w: &i128, whole: &i128) -> u128
    requires positive { pos 0 <ℤ w.now }
    requires narrow_n { IsNarrow n.now }
    requires narrow_w { IsNarrow w.now }
    requires floor { IsFloor n.now w.now whole.now }
    ensures value { pos result ≡ n.now -ℤ whole.now *ℤ w.now }
    ensures below { result < unsigned_abs w.now }
{
    left(n, w, whole) as u128
}

/// The same with its sign.
fn left(n: &i128, w: &i128, whole: &i128) -> i128
    requires positive { pos 0 <ℤ w.now }
    requires narrow_n { IsNarrow n.now }
    requires narrow_w { IsNarrow w.now }
    requires floor { IsFloor n.now w.now whole.now }
    ensures { result ≡ n.now -ℤ whole.now *ℤ w.now }
{
    *n - *whole * *w
}

/// The floor of a proper fraction at `k` decimal places.
fn fraction(rest: u128, w: u128, k: u8) -> u128
    requires proper { rest < w }
    requires narrow { w ≤ 2 ^ 120 }
    requires places { k ≤ 9 }
    ensures value { result ≡ rest * 10 ^ k / w }
    ensures below { result < 10 ^ k }
{
    if rest < SMALL {
        return rest * u128::from(power(k)) / w;
    }
    digit_by_digit(rest, w, k)
}

/// The same without a product that can leave 128 bits.
fn digit_by_digit(rest: u128, w: u128, k: u8) -> u128
    requires proper { rest < w }
    requires narrow { w ≤ 2 ^ 120 }
    requires places { k ≤ 9 }
    ensures { result ≡ rest * 10 ^ k / w }
{
    let mut left = rest;
    let mut digits: u128 = 0;
    for _ in 0..k {
        digits = digits * 10 + left * 10 / w;
        left = left * 10 % w;
    }
    digits
}

/// A power of ten.
fn power(k: u8) -> u64
    requires { k ≤ 9 }
    ensures value { result ≡ 10 ^ k }
    ensures most { result ≤ 1000000000 }
{
    POWERS[k as usize]
}

/// A whole and its decimal places as one number.
fn joined(whole: &i64, k: u8, places: u128) -> i128
    requires places { k ≤ 9 }
    requires below { places < 10 ^ k }
    ensures { result ≡ whole.now *ℤ pos (10 ^ k) +ℤ pos places }
{
    i128::from(*whole) * i128::from(power(k)) + places as i128
}

/// A number of 64 bits.
fn word(n: &i128) -> Result<i64, TooWide>
    ensures value { IfOk result (λ m. m ≡ n.now) }
    ensures succeeds { IsOk result ↔ FitsSigned w64 n.now }
{
    if *n < i64::MIN as i128 || *n > i64::MAX as i128 {
        return Err(TooWide);
    }
    Ok(*n as i64)
}
