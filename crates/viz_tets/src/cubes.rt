//! The tetrahedra of all cubes of an extent, by the numbers of their points.

ghost use Rattle.std.specs.Prelude.{◌≡◌, ◌<◌, ◌≤◌, ◌++◌, IfOk, OnOk};
ghost use Rattle.std.specs.List.{flat_map};
ghost use Rattle.viz_kuhn.specs.Corners.{corner};
ghost use Rattle.viz_kuhn.specs.Cubes.{HasCube, HasNext, leaf_of, lowest_in_layer, lowest_in_row};
ghost use Rattle.viz_kuhn.specs.Cubes.{six_at, tetrahedra_of};
ghost use Rattle.viz_kuhn.specs.Places.{place, place_of};

use std::alloc::{AllocError, Global};
use viz_extent::Extent;
use viz_kuhn::cubes;

/// The six tetrahedra of each cube, in the order of the list of all.
pub(crate) fn cells(alloc: Global, whole: &Extent) -> Result<Vec<[u32; 4]>, AllocError>
    ensures value { IfOk result (λ v. v.items ≡ tetrahedra_of whole.now) }
{
    let [_, _, _, _, z0, z1] = whole.bounds();
    let mut out = Vec::with_capacity(alloc, 6 * cubes(whole) as usize)?;
    for k in z0..z1 {
        push_layer(&mut out, whole, k)?;
    }
    Ok(out)
}

/// Adds those of the cubes in the layer that begins at an index along z.
fn push_layer(out: &mut Vec<[u32; 4]>, whole: &Extent, k: u32) -> Result<(), AllocError>
    requires z { HasNext whole.now.z0 whole.now.z1 k }
    ensures { OnOk result (out.new.items
        ≡ out.old.items ++ flat_map (six_at whole.now) (lowest_in_layer whole.now k)) }
{
    let [_, _, y0, y1, _, _] = whole.bounds();
    for j in y0..y1 {
        push_row(out, whole, j, k)?;
    }
    Ok(())
}

/// Adds those of the cubes in the row that begins at indices along y and z.
fn push_row(out: &mut Vec<[u32; 4]>, whole: &Extent, j: u32, k: u32) -> Result<(), AllocError>
    requires y { HasNext whole.now.y0 whole.now.y1 j }
    requires z { HasNext whole.now.z0 whole.now.z1 k }
    ensures { OnOk result (out.new.items
        ≡ out.old.items ++ flat_map (six_at whole.now) (lowest_in_row whole.now j k)) }
{
    let [x0, x1, _, _, _, _] = whole.bounds();
    for i in x0..x1 {
        push_cube(out, whole, i, j, k)?;
    }
    Ok(())
}

/// Adds the six of the cube whose lowest corner lies at these indices.
#[tactic(auto, unfolding(viz_kuhn::specs::Kuhn::rows))]
fn push_cube(
    out: &mut Vec<[u32; 4]>,
    whole: &Extent,
    i: u32,
    j: u32,
    k: u32,
) -> Result<(), AllocError>
    requires has { HasCube whole.now i j k }
    ensures { OnOk result (out.new.items ≡ out.old.items ++ six_at whole.now (place i j k)) }
{
    let a = leaf(whole, i, j, k, 0, 0, 0);
    let x = leaf(whole, i, j, k, 1, 0, 0);
    let y = leaf(whole, i, j, k, 0, 1, 0);
    let z = leaf(whole, i, j, k, 0, 0, 1);
    let xy = leaf(whole, i, j, k, 1, 1, 0);
    let xz = leaf(whole, i, j, k, 1, 0, 1);
    let yz = leaf(whole, i, j, k, 0, 1, 1);
    let b = leaf(whole, i, j, k, 1, 1, 1);
    out.extend_from_slice(&[
        [a, x, xy, b],
        [a, xz, x, b],
        [a, xy, y, b],
        [a, y, yz, b],
        [a, z, xz, b],
        [a, yz, z, b],
    ])?;
    Ok(())
}

/// The number of the point at a corner of a cube, so many steps from the lowest along each axis.
fn leaf(whole: &Extent, i: u32, j: u32, k: u32, x: u32, y: u32, z: u32) -> u32
    requires has { HasCube whole.now i j k }
    requires x { x ≤ 1 }
    requires y { y ≤ 1 }
    requires z { z ≤ 1 }
    ensures value { result ≡ leaf_of whole.now (place_of (place i j k) (corner x y z)) }
{
    // What an extent tells of its bounds and of its count.
    let _bounds = whole.bounds();
    let _count = whole.count();
    whole.index_of(i + x, j + y, k + z) as u32
}
