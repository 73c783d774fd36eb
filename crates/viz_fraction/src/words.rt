//! Five whole numbers of 64 bits, and the divisors that are tried for them.
ghost use Rattle.std.specs.Prelude.{◌≡◌, ℕ, ◌-ℤ◌, ◌↔◌, IsTrue, FitsSigned, unsigned_abs};
ghost use Rattle.std.specs.Int.{w32};
ghost use Prim.Native.Nat.{◌∣◌};
ghost use Rattle.viz_fraction.specs.Points.{divisor_of};
ghost use Rattle.viz_fraction.specs.Numbers.{point_of};
ghost use Rattle.viz_fraction.specs.Short.{IsShort};
ghost use Rattle.viz_fraction.specs.Steps.{IsStepDivisor};
ghost use Rattle.viz_fraction.specs.Words.{numbers_of};

use crate::divisors::with_word;

/// The numerators along x, y and z, that of the scalar, and their denominator, in 64 bits.
#[derive(Clone, Copy)]
pub(crate) struct Words {
    pub x: i64,
    pub y: i64,
    pub z: i64,
    pub s: i64,
    pub w: i64,
}

impl Words {
    /// All five fit 32 bits.
    #[inline(always)]
    pub(crate) fn are_short(&self) -> bool
        ensures { IsTrue result ↔ IsShort (point_of (numbers_of self.now)) }
    {
        is_short(&self.x)
            && is_short(&self.y)
            && is_short(&self.z)
            && is_short(&self.s)
            && is_short(&self.w)
    }
}

/// The number fits 32 bits.
#[inline(always)]
fn is_short(n: &i64) -> bool
    ensures { IsTrue result ↔ FitsSigned w32 n.now }
{
    *n >= i32::MIN as i64 && *n <= i32::MAX as i64
}

/// The greatest common divisor of five numbers, of which `start` is a multiple.
#[inline(always)]
pub(crate) fn word_divisor_of_five(start: u64, n: &Words) -> u64
    requires { divisor_of (point_of (numbers_of n.now)) ∣ start }
    ensures { result ≡ divisor_of (point_of (numbers_of n.now)) }
{
    let with_w = with_word(start, word_magnitude(&n.w));
    let with_x = with_word(with_w, word_magnitude(&n.x));
    let with_y = with_word(with_x, word_magnitude(&n.y));
    let with_z = with_word(with_y, word_magnitude(&n.z));
    with_word(with_z, word_magnitude(&n.s))
}

/// How far a number is from 0.
#[inline(always)]
pub(crate) fn word_magnitude(n: &i64) -> u64
    ensures { result ≡ unsigned_abs n.now }
{
    n.unsigned_abs()
}

/// A multiple of the greatest common divisor of a crossing's numbers, as `step_divisor` gives it:
/// quick where a step along an axis is 1.
#[inline(always)]
pub(crate) fn word_step_divisor(a: &Words, b: &Words) -> u64
    ensures { IsStepDivisor (point_of (numbers_of a.now)) (point_of (numbers_of b.now)) result }
{
    if a.w != 1 || b.w != 1 {
        return 0;
    }
    divisor_of_steps(
        word_step(&a.x, &b.x),
        word_step(&a.y, &b.y),
        word_step(&a.z, &b.z),
    )
}

/// What divides all three steps divides it.
#[inline(always)]
fn divisor_of_steps(x: u64, y: u64, z: u64) -> u64
    ensures { (d : ℕ) → d ∣ x → d ∣ y → d ∣ z → d ∣ result }
{
    if (x == 1) | (y == 1) | (z == 1) {
        return 1;
    }
    with_word(with_word(x, y), z)
}

/// How far the second number is from the first.
#[inline(always)]
fn word_step(from: &i64, to: &i64) -> u64
    ensures { result ≡ unsigned_abs (to.now -ℤ from.now) }
{
    to.abs_diff(*from)
}
