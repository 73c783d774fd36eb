//! Parts of an extent: what lies in it, round it, and on every so many planes.

ghost use Rattle.std.specs.Prelude.{◌≡◌, ◌/◌, ◌≤◌, ◌↔◌, IsTrue, IsSome, IfSome};
ghost use Rattle.viz_extent.specs.Extent.{bounds_of, IsAxis, IsExtent};
ghost use Rattle.viz_extent.specs.Parts.{IsAxisPart, IsPart, HasAll, common, CommonPoint};
ghost use Rattle.viz_extent.specs.Parts.{HasCommon, grown, HasGrown, rate_of, IsAxisRate, IsRate};
ghost use Rattle.viz_extent.specs.Parts.{first_kept, sampled, HasSampled, KeptIndex, KeepsAxes};
ghost use Rattle.viz_extent.specs.Parts.{spread};

use crate::bounds::Extent;

impl Extent {
    /// Whether every point of the other extent is a point of this one.
    pub fn contains(&self, other: &Extent) -> bool
        ensures value { IsTrue result ↔ IsPart self.now other.now }
        ensures points { IsTrue result ↔ HasAll self.now other.now }
    {
        let [a0, a1, b0, b1, c0, c1] = self.bounds();
        let [x0, x1, y0, y1, z0, z1] = other.bounds();
        is_axis_part(a0, a1, x0, x1) && is_axis_part(b0, b1, y0, y1) && is_axis_part(c0, c1, z0, z1)
    }

    /// The points whose indices lie within the bounds `[x0, x1, y0, y1, z0, z1]`, which may be any
    /// six numbers.
    ///
    /// `None` exactly where there are none.
    pub fn clip(&self, bounds: [u32; 6]) -> Option<Extent>
        ensures value { IfSome result (λ e. e ≡ common self.now (bounds_of bounds)) }
        ensures points { IfSome result (HasCommon self.now (bounds_of bounds)) }
        ensures some { IsSome result ↔ CommonPoint self.now (bounds_of bounds) }
        ensures valid { IfSome result IsExtent }
    {
        let [a0, a1, b0, b1, c0, c1] = self.bounds();
        let [x0, x1, y0, y1, z0, z1] = bounds;
        let (x0, x1) = (a0.max(x0), a1.min(x1));
        let (y0, y1) = (b0.max(y0), b1.min(y1));
        let (z0, z1) = (c0.max(z0), c1.min(z1));
        if x0 > x1 || y0 > y1 || z0 > z1 {
            return None;
        }
        Some(Extent::of([x0, x1, y0, y1, z0, z1]))
    }

    /// The points of the whole whose indices differ from those of a point of this extent by at
    /// most so many along each axis.
    pub fn grow(&self, by: u32, whole: &Extent) -> Extent
        requires within { IsPart whole.now self.now }
        ensures value { result ≡ grown by whole.now self.now }
        ensures points { HasGrown by whole.now self.now result }
        ensures valid { IsExtent result }
    {
        let [a0, a1, b0, b1, c0, c1] = whole.bounds();
        let [x0, x1, y0, y1, z0, z1] = self.bounds();
        Extent::of([
            a0.max(x0.saturating_sub(by)),
            a1.min(x1.saturating_add(by)),
            b0.max(y0.saturating_sub(by)),
            b1.min(y1.saturating_add(by)),
            c0.max(z0.saturating_sub(by)),
            c1.min(z1.saturating_add(by)),
        ])
    }

    /// The indices whose multiples by the rate, 1 to 1024 along each axis, are points of this
    /// extent.
    ///
    /// `None` exactly where an axis keeps no index.
    pub fn sampled(&self, rate: [u32; 3]) -> Option<Extent>
        requires rate { IsRate (rate_of rate) }
        ensures value { IfSome result (λ e. e ≡ sampled (rate_of rate) self.now) }
        ensures points { IfSome result (HasSampled (rate_of rate) self.now) }
        ensures some { IsSome result ↔ KeepsAxes (rate_of rate) self.now }
        ensures valid { IfSome result IsExtent }
    {
        let [a0, a1, b0, b1, c0, c1] = self.bounds();
        let [rx, ry, rz] = rate;
        let (x0, x1) = kept_axis(a0, a1, rx)?;
        let (y0, y1) = kept_axis(b0, b1, ry)?;
        let (z0, z1) = kept_axis(c0, c1, rz)?;
        Some(Extent::of([x0, x1, y0, y1, z0, z1]))
    }

    /// The extent with each bound times its rate: the least one with the points that `sampled` by
    /// the rate needs for this one.
    pub fn spread(&self, rate: [u32; 3]) -> Extent
        requires rate { IsRate (rate_of rate) }
        requires fits { IsExtent (spread (rate_of rate) self.now) }
        ensures value { result ≡ spread (rate_of rate) self.now }
        ensures points { HasSampled (rate_of rate) result self.now }
        ensures valid { IsExtent result }
    {
        let [x0, x1, y0, y1, z0, z1] = self.bounds();
        let [rx, ry, rz] = rate;
        Extent::of([x0 * rx, x1 * rx, y0 * ry, y1 * ry, z0 * rz, z1 * rz])
    }
}

/// Whether a part of an axis lies on it.
fn is_axis_part(lower: u32, upper: u32, first: u32, last: u32) -> bool
    ensures { IsTrue result ↔ IsAxisPart lower upper first last }
{
    lower <= first && last <= upper
}

/// The indices of an axis whose multiples by the rate lie on it: the first and the last one.
fn kept_axis(lower: u32, upper: u32, rate: u32) -> Option<(u32, u32)>
    requires axis { IsAxis lower upper }
    requires rate { IsAxisRate rate }
    ensures value { IfSome result (λ kept. kept ≡ (first_kept lower rate, upper / rate)) }
    ensures order { IfSome result (λ kept. first_kept lower rate ≤ upper / rate) }
    ensures some { IsSome result ↔ KeptIndex lower upper rate }
{
    let first = (lower + (rate - 1)) / rate;
    let last = upper / rate;
    if first <= last {
        Some((first, last))
    } else {
        None
    }
}
