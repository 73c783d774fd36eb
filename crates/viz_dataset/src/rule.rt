//! Tests of what the calls of an image need: limits of its numbers, and points of its extent.

ghost use Rattle.std.specs.Prelude.{◌≡◌, ◌↔◌, IsTrue};
ghost use Rattle.viz_extent.specs.Extent.{IsOnAxis, Has};
ghost use Rattle.viz_dataset.specs.Images.{vector_of, IsPosition, IsStep, IsOrigin, IsSpacing};

use viz_extent::Extent;

/// The magnitude of an origin is at most 10^18 units, in billionths.
const FARTHEST: u128 = 1_000_000_000_000_000_000_000_000_000;

/// A spacing is at most 10^9 units, in billionths.
const WIDEST_STEP: i128 = 1_000_000_000_000_000_000;

/// Whether three numbers of billionths may be an origin: none exceeds 10^18 units in magnitude.
pub fn is_origin(origin: &[i128; 3]) -> bool
    ensures value { IsTrue result ↔ IsOrigin (vector_of origin.now) }
{
    is_position(&origin[0]) && is_position(&origin[1]) && is_position(&origin[2])
}

/// Whether three numbers of billionths may be a spacing: each is above 0 and at most 10^9 units.
pub fn is_spacing(spacing: &[i128; 3]) -> bool
    ensures value { IsTrue result ↔ IsSpacing (vector_of spacing.now) }
{
    is_step(&spacing[0]) && is_step(&spacing[1]) && is_step(&spacing[2])
}

/// Whether a position is within the limit.
fn is_position(n: &i128) -> bool
    ensures value { IsTrue result ↔ IsPosition n.now }
{
    n.unsigned_abs() <= FARTHEST
}

/// Whether a step is above 0 and within the limit.
fn is_step(n: &i128) -> bool
    ensures value { IsTrue result ↔ IsStep n.now }
{
    *n > 0 && *n <= WIDEST_STEP
}

/// Whether an extent has a point at the indices i, j, k.
pub fn has_point(extent: &Extent, i: u32, j: u32, k: u32) -> bool
    ensures value { IsTrue result ↔ Has extent.now i j k }
{
    let [x0, x1, y0, y1, z0, z1] = extent.bounds();
    is_on_axis(x0, x1, i) && is_on_axis(y0, y1, j) && is_on_axis(z0, z1, k)
}

/// Whether an index lies on an axis.
fn is_on_axis(lower: u32, upper: u32, index: u32) -> bool
    ensures value { IsTrue result ↔ IsOnAxis lower upper index }
{
    lower <= index && index <= upper
}
