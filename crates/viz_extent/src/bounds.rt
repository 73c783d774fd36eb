//! The type `Extent`, and its calls.
ghost use Rattle.std.specs.Prelude.{◌≡◌, ℕ, ◌<◌, ◌≤◌, ◌^◌, ◌↔◌, [], ◌∷◌, IsTrue, IsSome, IfSome};
ghost use Rattle.viz_extent.specs.Extent.{Bounds, bounds_of, numbers_of, size_of, count_of};
ghost use Rattle.viz_extent.specs.Extent.{IsAxis, IsExtent, Has};
ghost use Rattle.viz_extent.specs.Numbering.{index_at};

use std::marker::Model;

/// Each bound is below this.
const BOUND_LIMIT: u32 = 1 << 31;

/// An extent has at most so many points.
const MOST_POINTS: u128 = (1 << 31) - 1;

/// A block of grid points: the first and the last index along x, y and z, both inclusive.
///
/// A lower bound is at most its upper one, each bound is below 2^31, and there are at most 2^31 - 1
/// points (docs/FORMATS.md, "Extents"). Contracts see the six bounds.
#[derive(Clone, Copy, PartialEq, Eq, Hash, Debug)]
pub struct Extent {
    x0: u32,
    x1: u32,
    y0: u32,
    y1: u32,
    z0: u32,
    z1: u32,
}

impl Model for Extent {
    ghost Value = { Bounds };

    ghost view = { λ e. bounds_of (e.x0 ∷ e.x1 ∷ e.y0 ∷ e.y1 ∷ e.z0 ∷ e.z1 ∷ []) };

    ghost invariant = { λ e. IsExtent (bounds_of (e.x0 ∷ e.x1 ∷ e.y0 ∷ e.y1 ∷ e.z0 ∷ e.z1 ∷ [])) };

    ghost inverse = { λ b. record {
      x0 = b.x0;
      x1 = b.x1;
      y0 = b.y0;
      y1 = b.y1;
      z0 = b.z0;
      z1 = b.z1;
    } };
}

impl Extent {
    /// The extent with the bounds `[x0, x1, y0, y1, z0, z1]`.
    ///
    /// `None` exactly where a lower bound is above its upper one, a bound is 2^31 or more, or there
    /// are more than 2^31 - 1 points.
    pub fn new(bounds: [u32; 6]) -> Option<Extent>
        ensures value { IfSome result (λ extent. extent ≡ bounds_of bounds) }
        ensures some { IsSome result ↔ IsExtent (bounds_of bounds) }
    {
        let [x0, x1, y0, y1, z0, z1] = bounds;
        if !is_axis(x0, x1) || !is_axis(y0, y1) || !is_axis(z0, z1) {
            return None;
        }
        // The product of three sizes can be 2^93.
        let plane = u128::from(size(x0, x1)) * u128::from(size(y0, y1));
        if plane * u128::from(size(z0, z1)) > MOST_POINTS {
            return None;
        }
        Some(Extent {
            x0,
            x1,
            y0,
            y1,
            z0,
            z1,
        })
    }

    /// The extent with these bounds, which make one.
    pub(crate) fn of(bounds: [u32; 6]) -> Extent
        requires { IsExtent (bounds_of bounds) }
        ensures { result ≡ bounds_of bounds }
    {
        let [x0, x1, y0, y1, z0, z1] = bounds;
        Extent {
            x0,
            x1,
            y0,
            y1,
            z0,
            z1,
        }
    }

    /// The bounds `[x0, x1, y0, y1, z0, z1]`.
    pub fn bounds(&self) -> [u32; 6]
        ensures value { result ≡ numbers_of self.now }
        ensures valid { IsExtent self.now }
    {
        [self.x0, self.x1, self.y0, self.y1, self.z0, self.z1]
    }

    /// How many points there are.
    pub fn count(&self) -> u64
        ensures value { result ≡ count_of self.now }
        ensures least { 0 < result }
        ensures most { result < 2 ^ 31 }
    {
        size(self.x0, self.x1) * size(self.y0, self.y1) * size(self.z0, self.z1)
    }

    /// The number of the point at the indices `i`, `j`, `k` along x, y and z.
    ///
    /// Indices count as the bounds do. Numbers count from 0 at the lowest corner, with x fastest,
    /// then y, then z (`x_is_fastest`, `rows_follow`).
    pub fn index_of(&self, i: u32, j: u32, k: u32) -> u64
        requires within { Has self.now i j k }
        ensures value { result ≡ index_at self.now i j k }
        ensures below { result < count_of self.now }
    {
        let width = size(self.x0, self.x1);
        let height = size(self.y0, self.y1);
        let row = u64::from(k - self.z0) * height + u64::from(j - self.y0);
        row * width + u64::from(i - self.x0)
    }

    /// The indices along x, y and z of the point with this number: `index_of` the other way round.
    pub fn place_of(&self, index: u64) -> (u32, u32, u32)
        requires within { index < count_of self.now }
        ensures has { Has self.now result.0 result.1 result.2 }
        ensures number { index_at self.now result.0 result.1 result.2 ≡ index }
        ensures only { (i j k : ℕ) → Has self.now i j k → index_at self.now i j k ≡ index
            → result ≡ (i, j, k) }
    {
        let width = size(self.x0, self.x1);
        let height = size(self.y0, self.y1);
        let row = index / width;
        let i = self.x0 + (index % width) as u32;
        let j = self.y0 + (row % height) as u32;
        let k = self.z0 + (row / height) as u32;
        (i, j, k)
    }
}

/// Whether two bounds are those of an axis.
fn is_axis(lower: u32, upper: u32) -> bool
    ensures { IsTrue result ↔ IsAxis lower upper }
{
    lower <= upper && upper < BOUND_LIMIT
}

/// How many indices an axis has.
fn size(lower: u32, upper: u32) -> u64
    requires { IsAxis lower upper }
    ensures value { result ≡ size_of lower upper }
    ensures least { 0 < result }
    ensures most { result ≤ 2 ^ 31 }
{
    u64::from(upper - lower) + 1
}
