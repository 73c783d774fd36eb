//! Five whole numbers, before they are brought to lowest terms, and what is read of one.
ghost use Rattle.std.specs.Prelude.{◌≡◌, pos, ◌<ℤ◌, ◌↔◌, IsTrue, FitsSigned, int_div, unsigned_abs};
ghost use Rattle.std.specs.Int.{w64};
ghost use Rattle.viz_fraction.specs.Points.{IsNarrow, IsNarrowPoint};
ghost use Rattle.viz_fraction.specs.Numbers.{point_of};

/// A number is wide where its magnitude exceeds this.
pub const WIDEST: u128 = 1 << 120;

/// The numerators along x, y and z, that of the scalar, and their denominator.
#[derive(Clone, Copy)]
pub(crate) struct Numbers {
    pub x: i128,
    pub y: i128,
    pub z: i128,
    pub s: i128,
    pub w: i128,
}

impl Numbers {
    /// None of the five is wide.
    pub(crate) fn is_narrow(&self) -> bool
        ensures { IsTrue result ↔ IsNarrowPoint (point_of self.now) }
    {
        is_narrow(&self.x)
            && is_narrow(&self.y)
            && is_narrow(&self.z)
            && is_narrow(&self.s)
            && is_narrow(&self.w)
    }
}

/// The number isn't wide.
pub(crate) fn is_narrow(n: &i128) -> bool
    ensures { IsTrue result ↔ IsNarrow n.now }
{
    n.unsigned_abs() <= WIDEST
}

/// How far a number is from 0.
pub(crate) fn magnitude(n: &i128) -> u128
    ensures { result ≡ unsigned_abs n.now }
{
    n.unsigned_abs()
}

/// A number divided by one above 0, toward 0.
pub(crate) fn quotient(n: &i128, divisor: &i128) -> i128
    requires { pos 0 <ℤ divisor.now }
    ensures { result ≡ int_div n.now divisor.now }
{
    if is_word(n) && is_word(divisor) {
        return word_quotient(*n as i64, *divisor as i64);
    }
    *n / *divisor
}

/// The same of numbers of 64 bits.
fn word_quotient(n: i64, divisor: i64) -> i128
    requires { pos 0 <ℤ divisor }
    ensures { result ≡ int_div n divisor }
{
    i128::from(n / divisor)
}

/// The number fits 64 bits.
pub(crate) fn is_word(n: &i128) -> bool
    ensures { IsTrue result ↔ FitsSigned w64 n.now }
{
    *n >= i64::MIN as i128 && *n <= i64::MAX as i128
}

/// The same number in 64 bits.
pub(crate) fn as_word(n: &i128) -> i64
    requires { FitsSigned w64 n.now }
    ensures { result ≡ n.now }
{
    *n as i64
}
