//! The indices round an index along an axis, as far as the whole reaches.

ghost use Rattle.std.specs.Prelude.{◌≡◌, ◌<◌, ◌≤◌, ◌-◌, ◌+◌, max, min};
ghost use Rattle.viz_image_ops.specs.Sums.{window_first, window_behind, IsReach};

/// An axis of the whole, how far a window reaches on it, and the places that windows lie in.
#[derive(Clone, Copy)]
pub(crate) struct Axis {
    /// At each side of an index so many lie in its window.
    pub(crate) radius: u32,
    /// The first index of the whole.
    pub(crate) lower: u32,
    /// The last index of the whole.
    pub(crate) upper: u32,
    /// The index that has the place 0.
    pub(crate) start: u32,
    /// How many places there are.
    pub(crate) places: usize,
}

/// The three axes.
#[derive(Clone, Copy)]
pub(crate) struct Axes {
    pub(crate) x: Axis,
    pub(crate) y: Axis,
    pub(crate) z: Axis,
}

impl Axis {
    /// The places of the window round an index: the first, and the one behind the last.
    pub(crate) fn window(&self, i: u32) -> (usize, usize)
        requires reach { IsReach self.now i i }
        ensures first { result.0 ≡ window_first self.now i }
        ensures behind { result.1 ≡ window_behind self.now i }
        ensures some { result.0 < result.1 }
        ensures places { result.1 ≤ self.now.places }
    {
        let first = self.lower.max(i.saturating_sub(self.radius));
        let last = self.upper.min(i.saturating_add(self.radius));
        (
            (first - self.start) as usize,
            (last - self.start) as usize + 1,
        )
    }
}
