//! How many points and cells may be written.

ghost use Rattle.std.specs.Prelude.{◌<◌, ◌^◌, ◌↔◌, IsTrue};

/// The greatest number of points, and of the numbers of a section of cells.
const MOST: u64 = (1 << 31) - 1;

/// Whether so many points, and cells of so many numbers in all, may be written: at most 2^31 - 1 of
/// each.
pub fn counts_fit(points: u64, size: u64) -> bool
    ensures value { IsTrue result ↔ ((points < 2 ^ 31) × (size < 2 ^ 31)) }
{
    points <= MOST && size <= MOST
}
