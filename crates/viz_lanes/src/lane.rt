//! The eight types, as one to a generic function.

ghost use Rattle.std.specs.Prelude.{◌≡◌, ◌≤◌, ◌&&◌, Bool, ℤ, true, map, take, length, int_le};
ghost use Rattle.viz_lanes.specs.Kept.{low_bits};
ghost use Rattle.viz_lanes.specs.Lanes.{AreOwn};
ghost use Rattle.viz_lanes.specs.Planes.{kept_or_zero};

/// A type of numbers that are compared 64 at a time.
pub(crate) trait Lane: Copy {
    // The number that a value of the type is.
    ghost whole: { Self → ℤ };

    // What has to be known of a value before it is compared in a lane.
    ghost own: { Self → Bool };

    /// Nothing is done: the call is there for its proof.
    fn show(self)
        ensures { own self ≡ true };

    /// Whether the number is at least v.
    fn is_at_least(self, v: Self) -> bool
        ensures { result ≡ int_le (whole v) (whole self) };

    /// Whether the number is at least lo and at most hi.
    fn is_within(self, lo: Self, hi: Self) -> bool
        ensures { result ≡ (int_le (whole lo) (whole self) && int_le (whole self) (whole hi)) };

    /// The number where it is at least lo and at most hi, and 0 elsewhere.
    fn kept(self, lo: Self, hi: Self) -> Self
        ensures { whole result ≡ kept_or_zero (whole lo) (whole hi) (whole self) };

    /// A bit for each of the first 64 numbers: whether it is at least v.
    fn at_least_word(block: &[Self], v: Self) -> u64
        requires long { 64 ≤ length block.now }
        requires own { AreOwn own block.now }
        ensures { low_bits 64 result ≡ map (λ x. int_le (whole v) (whole x)) (take 64 block.now) };

    /// A bit for each of the first 64 numbers: whether it is at least lo and at most hi.
    fn within_word(block: &[Self], lo: Self, hi: Self) -> u64
        requires long { 64 ≤ length block.now }
        requires own { AreOwn own block.now }
        ensures { low_bits 64 result ≡ map (λ x.
            int_le (whole lo) (whole x) && int_le (whole x) (whole hi)) (take 64 block.now) };
}
