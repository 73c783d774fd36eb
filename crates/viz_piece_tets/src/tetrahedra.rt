//! The tetrahedra of a piece.

ghost use Rattle.std.specs.Prelude.{◌≡◌, ◌-◌, ◌^◌, ◌<◌, ◌≤◌, IfOk, length};
ghost use Rattle.viz_extent.specs.Parts.{IsPart};
ghost use Rattle.viz_meaning.specs.Tetrahedra.{tetrahedra_sheet};
ghost use Rattle.viz_piece_layers.specs.Layers.{layer_size};
ghost use Rattle.viz_piece_tets.specs.Asked.{asked};
ghost use Rattle.viz_piece_tets.specs.Layers.{block_levels};
ghost use Rattle.viz_piece_tets.specs.Tets.{AnswersTets, tets_part};

use crate::asking::leaf_base;
use crate::laws::tets_are_parts;
use crate::layers::OwnLayers;
use crate::shifting::shifted;
use std::alloc::{AllocError, Global};
use viz_dataset::Image;
use viz_extent::Extent;
use viz_kuhn::list_is_in_order;
use viz_parts::{Part, PartSheet};
use viz_sheet::Sheet;
use viz_tets::tets as all_tets;

/// Piece `p` of `n` of the tetrahedra of a whole image, with so many ghost levels: one part of the
/// only sheet. The slab has the planes that `asked` names.
///
/// # Errors
///
/// Want of memory alone.
pub fn tets(
    alloc: Global,
    slab: &Image,
    whole: &Extent,
    p: u32,
    n: u32,
    ghosts: u32,
) -> Result<Part, AllocError>
    requires below { p < n }
    requires slab { slab.now.extent ≡ asked p n ghosts whole.now }
    ensures answers { IfOk result (AnswersTets p n ghosts whole.now slab.now) }
{
    tets_are_parts();
    let piece = tets_piece(alloc, slab, whole, p, n, ghosts)?;
    Ok(Part::Mesh(vec![in alloc; piece]?))
}

/// The part of the only sheet: the slab's tetrahedra, with the leaves of the whole and the level of
/// each.
pub fn tets_piece(
    alloc: Global,
    slab: &Image,
    whole: &Extent,
    p: u32,
    n: u32,
    ghosts: u32,
) -> Result<PartSheet, AllocError>
    requires below { p < n }
    requires slab { slab.now.extent ≡ asked p n ghosts whole.now }
    ensures value { IfOk result (λ part. part ≡ tets_part p n whole.now slab.now) }
{
    // What the extent of the whole tells of its bounds.
    let _bounds = whole.bounds();
    let block = slab.extent();
    let base = leaf_base(whole, &block);
    let sheet = shifted(alloc, sheet_of_tets(alloc, slab)?, base)?;
    with_levels(alloc, sheet, &block, whole, p, n)
}

/// The sheet of an image's tetrahedra.
pub fn sheet_of_tets(alloc: Global, image: &Image) -> Result<Sheet, AllocError>
    ensures value { IfOk result (λ s. s ≡ tetrahedra_sheet image.now) }
{
    let mut sheets = all_tets(alloc, image)?.into_sheets();
    match sheets.pop() {
        Some(sheet) => Ok(sheet),
        None => unreachable!(),
    }
}

/// A sheet of tetrahedra between the planes of a block, with the level of each.
fn with_levels(
    alloc: Global,
    sheet: Sheet,
    block: &Extent,
    whole: &Extent,
    p: u32,
    n: u32,
) -> Result<PartSheet, AllocError>
    requires below { p < n }
    requires part { IsPart whole.now block.now }
    requires matched { length sheet.cells ≡ length (block_levels p n whole.now block.now) }
    ensures { IfOk result (λ part. part ≡ record {
      sheet = sheet;
      levels = block_levels p n whole.now block.now;
    }) }
{
    let own = OwnLayers::of(whole, p, n);
    let (low, high) = layers_between(whole, block);
    if own.are_all(low, high) {
        return Ok(PartSheet::own(sheet));
    }
    let levels = own.levels(alloc, low, high, layer_size(whole))?;
    Ok(PartSheet::new(sheet, levels))
}

/// The first layer of cubes in a block, counted from the lowest one of the whole, and the one after
/// the last.
pub fn layers_between(whole: &Extent, block: &Extent) -> (u32, u32)
    requires part { IsPart whole.now block.now }
    ensures low { result.0 ≡ block.now.z0 - whole.now.z0 }
    ensures high { result.1 ≡ block.now.z1 - whole.now.z0 }
    ensures order { result.0 ≤ result.1 }
    ensures most { result.1 < 2 ^ 31 }
{
    let [_, _, _, _, z0, _] = whole.bounds();
    let [_, _, _, _, low, high] = block.bounds();
    (low - z0, high - z0)
}

/// How many tetrahedra a layer of cubes has.
fn layer_size(whole: &Extent) -> u64
    ensures value { result ≡ layer_size whole.now }
{
    let [x0, x1, y0, y1, _, _] = whole.bounds();
    6 * (u64::from(x1 - x0) * u64::from(y1 - y0))
}
