//! A quick divisor for the crossings on a grid of whole numbers.
ghost use Rattle.std.specs.Prelude.{◌≡◌, ◌-ℤ◌, unsigned_abs};
ghost use Rattle.viz_fraction.specs.Numbers.{point_of};
ghost use Rattle.viz_fraction.specs.Steps.{IsStepDivisor};

use crate::divisors::with_magnitude;
use crate::numbers::Numbers;

/// A multiple of the greatest common divisor of a crossing's numbers: that of the steps between its
/// ends, where both have the weight 1, as the neighbours of a grid of whole numbers; else 0.
#[inline(always)]
pub(crate) fn step_divisor(a: &Numbers, b: &Numbers) -> u128
    ensures { IsStepDivisor (point_of a.now) (point_of b.now) result }
{
    if a.w != 1 || b.w != 1 {
        return 0;
    }
    let along_x = step(&a.x, &b.x);
    let along_y = with_magnitude(along_x, step(&a.y, &b.y));
    with_magnitude(along_y, step(&a.z, &b.z))
}

/// How far the second number is from the first.
#[inline(always)]
fn step(from: &i128, to: &i128) -> u128
    ensures { result ≡ unsigned_abs (to.now -ℤ from.now) }
{
    to.abs_diff(*from)
}
