//! The greatest common divisor.
ghost use Rattle.std.specs.Prelude.{◌≡◌, ℕ, ◌<◌, ◌%◌};
ghost use Rattle.viz_fraction.specs.Divisors.{gcd};

/// The greatest common divisor of a divisor and one magnitude more; quick where the divisor is 1.
#[inline(always)]
pub(crate) fn with_magnitude(divisor: u128, magnitude: u128) -> u128
    ensures { result ≡ gcd divisor magnitude }
{
    if divisor == 0 {
        return magnitude;
    }
    if divisor == 1 {
        return 1;
    }
    common_divisor(divisor, magnitude)
}

/// The greatest number that divides both, and the other number where one is 0.
#[inline(never)]
pub(crate) fn common_divisor(a: u128, b: u128) -> u128
    ensures { result ≡ gcd a b }
{
    let mut x = a;
    let mut y = b;
    while y > u64::MAX as u128 {
        let rest = x % y;
        x = y;
        y = rest;
    }
    if y == 0 {
        return x;
    }
    if x > u64::MAX as u128 {
        return word_divisor(y as u64, (x % y) as u64) as u128;
    }
    word_divisor(y as u64, x as u64) as u128
}

/// The same as `with_magnitude` in 64 bits.
#[inline(always)]
pub(crate) fn with_word(divisor: u64, magnitude: u64) -> u64
    ensures { result ≡ gcd divisor magnitude }
{
    if divisor == 0 {
        return magnitude;
    }
    if divisor == 1 {
        return 1;
    }
    word_divisor(divisor, magnitude)
}

/// The same as `common_divisor` in 64 bits: the lesser power of two, and then odd numbers alone.
pub(crate) fn word_divisor(a: u64, b: u64) -> u64
    requires { 0 < a }
    ensures { result ≡ gcd a b }
{
    if b == 0 {
        return a;
    }
    let twos = a.trailing_zeros();
    let other_twos = b.trailing_zeros();
    let odd = odd_divisor(a >> twos, b >> other_twos);
    odd << twos.min(other_twos)
}

/// The same where one number is odd.
fn odd_divisor(a: u64, b: u64) -> u64
    requires { a % 2 ≡ 1 }
    ensures { result ≡ gcd a b }
{
    let mut x = a;
    let mut y = b;
    while y != 0 {
        let odd = y >> y.trailing_zeros();
        y = odd.abs_diff(x);
        x = odd.min(x);
    }
    x
}
