//! All parts of a dataset put together.

ghost use Rattle.std.specs.Prelude.{◌≡◌, false, IfOk, IsTrue};
ghost use Rattle.viz_parts.specs.Stitching.{AreAllOf, AreAllParts};
ghost use Rattle.viz_piece_stitch.specs.Steps.Wholes.{ArePieces, AreSlabs};

use crate::image::stitched_image;
use crate::mesh::stitched_mesh;
use std::alloc::{AllocError, Global};
use viz_base::Shared;
use viz_dataset::Dataset;
use viz_parts::Part;

/// The dataset of which these are all parts: those of all slabs of an image that there are, or all
/// pieces of a mesh, in turn.
///
/// Ghost cells are dropped. Parts are given up one after the other, as soon as their last cells are
/// joined, and the only part is not copied. Names of points of two levels in one sheet, as no mesh
/// has them, and more than 2^32 points are answered as want of memory.
pub fn stitch(alloc: Global, parts: Vec<Part>) -> Result<Dataset, AllocError>
    requires all { AreAllParts parts.items }
    ensures whole { IfOk result (λ w. (whole : _) → AreAllOf whole parts.items → w ≡ whole) }
{
    let whole = stitch_shared(alloc, shared(alloc, parts)?)?;
    Ok(whole)
}

/// Each part as its only owner holds it.
fn shared(alloc: Global, parts: Vec<Part>) -> Result<Vec<Shared<Part>>, AllocError>
    ensures { IfOk result (λ v. v.items ≡ parts.items) }
{
    let mut all = Vec::with_capacity(alloc, parts.len())?;
    for part in parts {
        all.push(Shared::new(alloc, part)?)?;
    }
    Ok(all)
}

/// The same of parts that others may own too. They are read where they lie, and each is given up as
/// soon as its last cells are joined. The only part is not copied where it has no other owner.
pub fn stitch_shared(alloc: Global, parts: Vec<Shared<Part>>) -> Result<Dataset, AllocError>
    requires all { AreAllParts parts.items }
    ensures whole { IfOk result (λ w. (whole : _) → AreAllOf whole parts.items → w ≡ whole) }
{
    if is_image(&parts) {
        let image = stitched_image(alloc, parts)?;
        return Ok(Dataset::Image(image));
    }
    let mesh = stitched_mesh(alloc, parts)?;
    Ok(Dataset::Mesh(mesh))
}

/// Whether all are parts of an image, and not of a mesh.
fn is_image(parts: &[Shared<Part>]) -> bool
    requires { AreAllParts parts.now }
    ensures slabs { IsTrue result → AreSlabs parts.now }
    ensures pieces { result ≡ false → ArePieces parts.now }
{
    match parts.first() {
        Some(part) => match part.get() {
            Part::Image(_) => true,
            Part::Mesh(_) => false,
        },
        None => unreachable!(),
    }
}
