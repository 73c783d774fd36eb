//! Products and sums that are tested before they are made.
ghost use Rattle.std.specs.Prelude.{◌≡◌, ℕ, ◌^◌, ◌≤◌, ◌*◌, pos, ◌+ℤ◌, ◌*ℤ◌, ◌↔◌, IfOk, IsOk};
ghost use Rattle.std.specs.Prelude.{IsTrue, unsigned_abs};
ghost use Rattle.viz_fraction.specs.Points.{IsNarrow};

use crate::numbers::{WIDEST, is_narrow, magnitude};
use crate::points::TooWide;

/// Two numbers of at most this magnitude have a product that isn't wide.
const SMALL: u128 = 1 << 60;

/// A product of two numbers, where it isn't wide.
pub(crate) fn product(m: &i128, n: &i128) -> Result<i128, TooWide>
    ensures value { IfOk result (λ t. t ≡ m.now *ℤ n.now) }
    ensures succeeds { IsOk result ↔ IsNarrow (m.now *ℤ n.now) }
    ensures bound { IfOk result (λ t. unsigned_abs t ≤ 2 ^ 120) }
{
    let one = magnitude(m);
    let other = magnitude(n);
    if fits(one, other) {
        Ok(*m * *n)
    } else {
        Err(TooWide)
    }
}

/// The product of two magnitudes isn't wide.
fn fits(m: u128, n: u128) -> bool
    ensures { IsTrue result ↔ (m * n ≤ 2 ^ 120) }
{
    if m <= SMALL && n <= SMALL {
        return true;
    }
    n == 0 || m <= WIDEST / n
}

/// The sum of two numbers that aren't wide, where it isn't wide.
pub(crate) fn sum(m: &i128, n: &i128) -> Result<i128, TooWide>
    requires first { IsNarrow m.now }
    requires second { IsNarrow n.now }
    ensures value { IfOk result (λ t. t ≡ m.now +ℤ n.now) }
    ensures succeeds { IsOk result ↔ IsNarrow (m.now +ℤ n.now) }
{
    narrow(&(*m + *n))
}

/// A number that isn't wide.
pub(crate) fn narrow(n: &i128) -> Result<i128, TooWide>
    ensures value { IfOk result (λ t. t ≡ n.now) }
    ensures succeeds { IsOk result ↔ IsNarrow n.now }
{
    if is_narrow(n) { Ok(*n) } else { Err(TooWide) }
}
