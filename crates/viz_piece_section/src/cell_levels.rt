//! The level of each cell of a section, by the layer of cubes that it lies in.

ghost use Rattle.std.specs.Prelude.{◌≡◌, ◌-◌, ◌^◌, ◌<◌, ◌≤◌, [], All, IfOk, length, map, min};
ghost use Rattle.std.specs.Prelude.{slice_index_or};
ghost use Rattle.std.specs.List.{flat_map};
ghost use Rattle.viz_piece_layers.specs.Layers.{plane_of};
ghost use Rattle.viz_piece_section.specs.Steps.Leaves.{cell_level, least_leaf, least_of};
ghost use Rattle.viz_sheet.specs.Ranked.{names_at};

use std::alloc::{AllocError, Global};
use viz_extent::Extent;
use viz_piece_tets::OwnLayers;
use viz_sheet::Sheet;

/// Each leaf is at most this one.
const LAST_LEAF: u32 = (1 << 31) - 1;

/// The level of each cell of a sheet that has the leaves of the whole.
pub(crate) fn cell_levels(
    alloc: Global,
    sheet: &Sheet,
    own: &OwnLayers,
    whole: &Extent,
) -> Result<Vec<u32>, AllocError>
    ensures { IfOk result (λ v. v.items
        ≡ map (cell_level own.now.first own.now.next whole.now) sheet.now.cells) }
{
    let count = sheet.cell_count();
    let mut levels = Vec::with_capacity(alloc, count)?;
    for i in 0..count {
        levels.push(own.distance(plane_of(whole, least_leaf(sheet, i))))?;
    }
    Ok(levels)
}

/// The plane that a leaf lies on, counted from the lowest one.
fn plane_of(whole: &Extent, leaf: u32) -> u32
    requires { leaf < 2 ^ 31 }
    ensures value { result ≡ plane_of whole.now leaf }
    ensures most { result < 2 ^ 31 }
{
    let [x0, x1, y0, y1, _, _] = whole.bounds();
    leaf / (x1 - x0 + 1) / (y1 - y0 + 1)
}

/// The least leaf of a cell.
fn least_leaf(sheet: &Sheet, i: usize) -> u32
    requires { i < length sheet.now.cells }
    ensures value { result ≡ least_leaf (slice_index_or sheet.now.cells i []) }
    ensures most { result < 2 ^ 31 }
{
    least_at(sheet, sheet.cell(i))
}

/// The least leaf of the names of some ranks.
fn least_at(sheet: &Sheet, ranks: &[u32]) -> u32
    requires { All (λ r. r < length sheet.now.names) ranks.now }
    ensures value { result ≡ least_leaf (names_at sheet.now.names ranks.now) }
    ensures most { result < 2 ^ 31 }
{
    let mut least = LAST_LEAF;
    for rank in ranks {
        least = lesser(least, sheet.name(*rank as usize));
    }
    least
}

/// The least leaf of a name, or a number where that is less.
fn lesser(number: u32, name: &[u32]) -> u32
    requires { number < 2 ^ 31 }
    ensures value { result ≡ min number (least_of name.now) }
    ensures most { result < 2 ^ 31 }
{
    let mut least = number;
    for leaf in name {
        least = least.min(*leaf);
    }
    least
}
