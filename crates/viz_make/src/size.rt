//! The extents that volumes are made on.

ghost use Rattle.std.specs.Prelude.{◌≡◌};
ghost use Rattle.viz_make.specs.Size.{volume_extent};

use viz_extent::Extent;

/// A volume has at most so many points.
const MOST_POINTS: u64 = 262_144;

/// The extent of so many points along x, y and z, from index 0 on.
///
/// `None` exactly where a number is 0, or the product of all three is more than 262,144.
pub fn volume_extent(x: u32, y: u32, z: u32) -> Option<Extent>
    ensures value { result ≡ volume_extent x y z }
{
    if x == 0 || y == 0 || z == 0 {
        return None;
    }
    let plane = u64::from(x) * u64::from(y);
    if plane > MOST_POINTS || plane * u64::from(z) > MOST_POINTS {
        return None;
    }
    Extent::new([0, x - 1, 0, y - 1, 0, z - 1])
}
