//! All slabs of an image.

ghost use Rattle.std.specs.Prelude.{◌≡◌, ◌<◌, ◌++◌, IfOk, option_to_list};
ghost use Rattle.std.specs.List.{AllZip};
ghost use Rattle.viz_extent.specs.Slabs.{slab_of};
ghost use Rattle.viz_parts.specs.Pieces.{IsImageBlock};
ghost use Rattle.viz_parts.specs.Stitching.{AreAllParts, AreSlabsOf};

use std::alloc::{AllocError, Global};
use viz_dataset::Image;
use viz_parts::Part;

/// The parts of all slabs of `n` that there are of an image, in turn.
pub fn all_slabs(alloc: Global, whole: &Image, n: u32) -> Result<Vec<Part>, AllocError>
    requires some { 0 < n }
    ensures slabs { IfOk result (λ v. AreSlabsOf whole.now v.items) }
    ensures all { IfOk result (λ v. AreAllParts v.items) }
{
    let parts = slabs_in_turn(alloc, whole, n)?;
    Ok(parts)
}

/// The same.
fn slabs_in_turn(alloc: Global, whole: &Image, n: u32) -> Result<Vec<Part>, AllocError>
    requires some { 0 < n }
    ensures slabs { IfOk result (λ v. AreSlabsOf whole.now v.items) }
{
    let mut parts = Vec::new(alloc);
    for p in 0..n {
        push_some(&mut parts, slab_part(alloc, whole, p, n)?)?;
    }
    Ok(parts)
}

/// The part of a slab, if the slab has planes.
fn slab_part(alloc: Global, whole: &Image, p: u32, n: u32) -> Result<Option<Part>, AllocError>
    requires below { p < n }
    ensures { IfOk result (λ part. AllZip (IsImageBlock whole.now)
        (option_to_list (slab_of p n whole.now.extent)) (option_to_list part)) }
{
    match whole.extent().slab(p, n) {
        Some(slab) => Ok(Some(Part::Image(whole.restrict(alloc, &slab)?))),
        None => Ok(None),
    }
}

/// Adds a part, if there is one.
fn push_some(parts: &mut Vec<Part>, part: Option<Part>) -> Result<(), AllocError>
    ensures { IfOk result (λ _. parts.new.items ≡ parts.old.items ++ option_to_list part) }
{
    if let Some(part) = part {
        parts.push(part)?;
    }
    Ok(())
}
