//! The cubes of an extent, and the tetrahedra of a cube.
ghost use Rattle.std.specs.Prelude.{◌≡◌, ◌<◌, ◌+◌, ◌^◌, ◌↔◌, All, map, IsTrue};
ghost use Rattle.viz_extent.specs.Extent.{count_of};
ghost use Rattle.viz_kuhn.specs.Corners.{corner_of};
ghost use Rattle.viz_kuhn.specs.Kuhn.{IsEven, corners_of};
ghost use Rattle.viz_kuhn.specs.Places.{place, place_of};
ghost use Rattle.viz_kuhn.specs.Cubes.{HasCube, cubes_of, lowest_of, leaf_of, tet_at};

use viz_extent::Extent;

/// The corners of the six tetrahedra as bits x y z, in the order that makes each positive.
#[rattlefmt::skip]
const CORNERS: [[u8; 4]; 6] = [
    [0b000, 0b100, 0b110, 0b111],   // x y z
    [0b000, 0b101, 0b100, 0b111],   // x z y, odd
    [0b000, 0b110, 0b010, 0b111],   // y x z, odd
    [0b000, 0b010, 0b011, 0b111],   // y z x
    [0b000, 0b001, 0b101, 0b111],   // z x y
    [0b000, 0b011, 0b001, 0b111],   // z y x, odd
];

/// Whether the path takes the axes in an even order.
#[rattlefmt::skip]
const EVEN: [bool; 6] = [
    true,    // x y z
    false,   // x z y
    false,   // y x z
    true,    // y z x
    true,    // z x y
    false,   // z y x
];

/// How many cubes lie between the points.
///
/// 0 where an axis has one index.
pub fn cubes(whole: &Extent) -> u64
    ensures value { result ≡ cubes_of whole.now }
    ensures most { result < 2 ^ 31 }
{
    let [x0, x1, y0, y1, z0, z1] = whole.bounds();
    u64::from(x1 - x0) * u64::from(y1 - y0) * u64::from(z1 - z0)
}

/// Whether the path of tetrahedron `p` takes the axes in an even order.
pub fn even(p: u8) -> bool
    requires row { p < 6 }
    ensures value { IsTrue result ↔ IsEven p }
{
    EVEN[usize::from(p)]
}

/// The four corners of tetrahedron `p` of a cube, as numbers of points in the whole extent.
///
/// Cubes count from 0 with x fastest, then y, then z, and tetrahedra in the order of the table.
pub fn tet(whole: &Extent, cube: u64, p: u8) -> [u64; 4]
    requires within { cube < cubes_of whole.now }
    requires row { p < 6 }
    ensures value { result ≡ tet_at whole.now cube p }
    ensures below { All (λ leaf. leaf < count_of whole.now) result }
{
    let lowest = lowest(whole, cube);
    let [first, second, third, fourth] = corners(p);
    [
        leaf(*whole, lowest, first),
        leaf(*whole, lowest, second),
        leaf(*whole, lowest, third),
        leaf(*whole, lowest, fourth),
    ]
}

/// The indices along x, y and z of a cube's lowest corner.
fn lowest(whole: &Extent, cube: u64) -> (u32, u32, u32)
    requires { cube < cubes_of whole.now }
    ensures value { place result.0 result.1 result.2 ≡ lowest_of whole.now cube }
    ensures has { HasCube whole.now result.0 result.1 result.2 }
{
    let [x0, x1, y0, y1, z0, _] = whole.bounds();
    let width = x1 - x0;
    let height = y1 - y0;
    // There are fewer than 2^31 cubes, and dividing 64 bits takes longer.
    let cube = cube as u32;
    let row = cube / width;
    (x0 + cube % width, y0 + row % height, z0 + row / height)
}

/// The corners of a tetrahedron, each as bits x y z.
fn corners(p: u8) -> [u8; 4]
    requires { p < 6 }
    ensures value { map corner_of result ≡ corners_of p }
    ensures bits { All (λ bits. bits < 8) result }
{
    CORNERS[usize::from(p)]
}

/// The number of the point at a corner, bits x y z, of the cube with this lowest corner.
fn leaf(whole: Extent, lowest: (u32, u32, u32), bits: u8) -> u64
    requires bits { bits < 8 }
    requires has { HasCube whole lowest.0 lowest.1 lowest.2 }
    ensures value { let from = place lowest.0 lowest.1 lowest.2 in
        result ≡ leaf_of whole (place_of from (corner_of bits)) }
    ensures below { result < count_of whole }
{
    let (i, j, k) = lowest;
    whole.index_of(
        i + u32::from(bits / 4),
        j + u32::from(bits / 2 % 2),
        k + u32::from(bits % 2),
    )
}
