//! Pieces of an image's tetrahedra and sections, each from the block that it asks for.

ghost use Rattle.std.specs.Prelude.{◌≡◌, ◌<◌, IfOk};
ghost use Rattle.viz_piece_tets.specs.Asked.{asked};

use std::alloc::{AllocError, Global};
use viz_dataset::Image;
use viz_fraction::Form;
use viz_meaning::WorkStop;
use viz_parts::Part;
use viz_piece_section::section_image;
use viz_piece_tets::{asked as asked_planes, tets};

/// Piece `p` of `n` of an image's tetrahedra, with so many ghost levels.
pub(super) fn tets_of(
    alloc: Global,
    image: &Image,
    p: u32,
    n: u32,
    ghosts: u32,
) -> Result<Part, AllocError>
    requires below { p < n }
{
    let whole = image.extent();
    let slab = slab_of(alloc, image, p, n, ghosts)?;
    let part = tets(alloc, &slab, &whole, p, n, ghosts)?;
    Ok(part)
}

/// Piece `p` of `n` of an image's sections by forms, with so many ghost levels.
///
/// # Errors
///
/// `TooWide` only where a number of a section of the block that the piece asks for is wide.
pub(super) fn sections_of(
    alloc: Global,
    image: &Image,
    p: u32,
    n: u32,
    ghosts: u32,
    forms: &[Form],
) -> Result<Part, WorkStop>
    requires below { p < n }
{
    let whole = image.extent();
    let slab = slab_of(alloc, image, p, n, ghosts)?;
    let part = section_image(alloc, &slab, &whole, p, n, ghosts, forms)?;
    Ok(part)
}

/// The block of an image that a piece asks for.
pub(super) fn slab_of(
    alloc: Global,
    image: &Image,
    p: u32,
    n: u32,
    ghosts: u32,
) -> Result<Image, AllocError>
    requires below { p < n }
    ensures block { IfOk result (λ slab. slab.extent ≡ asked p n ghosts image.now.extent) }
{
    let whole = image.extent();
    let planes = asked_planes(&whole, p, n, ghosts);
    let slab = image.restrict(alloc, &planes)?;
    Ok(slab)
}
