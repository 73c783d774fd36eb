//! Points, in half the room where their numbers fit 64 bits.

ghost use Rattle.std.specs.Prelude.{◌≡◌, ◌<◌, length, slice_index_or};
ghost use Rattle.viz_sheet.specs.Arrays.{points_in};

use viz_fraction::{Point5, SmallPoint};

/// Points of five numbers of 64 bits, or of 128.
#[derive(Debug, Drop)]
pub enum Places {
    Small(Vec<SmallPoint>),
    Wide(Vec<Point5>),
}

impl Places {
    /// How many points.
    pub fn len(&self) -> usize
        ensures value { result ≡ length (points_in self.now) }
    {
        match self {
            Places::Small(points) => points.len(),
            Places::Wide(points) => points.len(),
        }
    }

    /// The point of a rank.
    pub fn get(&self, rank: usize) -> Point5
        requires { rank < length (points_in self.now) }
        ensures value { result ≡ slice_index_or (points_in self.now) rank result }
    {
        match self {
            Places::Small(points) => small_at(points, rank),
            Places::Wide(points) => points[rank],
        }
    }
}

/// A small point, made wide.
fn small_at(points: &[SmallPoint], rank: usize) -> Point5
    requires { rank < length points.now }
    ensures { result ≡ slice_index_or points.now rank result }
{
    points[rank].wide()
}
