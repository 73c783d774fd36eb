//! What a node makes for a request.

ghost use Rattle.std.specs.Prelude.{◌≡◌, IfErr, IfOk};
ghost use Rattle.viz_node_parts.specs.Made.{HasCause, MakesPart, MayStop};
ghost use Rattle.viz_node_parts.specs.Taken.{TakesParts};

use crate::blocks::{arith_block, crop_block, sample_block, smooth_block, threshold_block};
use crate::files::file_part;
use crate::meshes::{append_pieces, boundary_piece, merge_piece, select_piece};
use crate::ports::part_at;
use crate::sections::{contour_piece, cut_piece, tets_piece};
use std::alloc::Global;
use viz_base::Shared;
use viz_extent::Extent;
use viz_kinds::Settings;
use viz_network::Node;
use viz_node_rules::{OwnStop, plane_form};
use viz_parts::{Part, Request};

/// What a node makes for a request of the parts at its ports, port 1 first, which are those that it
/// asks for: a block of an image, a piece of a mesh, and of a file or a merge all. `whole` is the
/// extent of the image at its ports, None of a mesh. The parts at the ports aren't copied.
///
/// # Errors
///
/// `Cause` only of a file, its first fault, and of a section, `TooWide` where a number of a section
/// of the part at its port is wide. Want of memory may come in place of both.
#[rattlefmt::skip]
pub fn node_part(
    alloc: Global,
    node: &Node,
    whole: &Option<Extent>,
    request: &Request,
    inputs: &[Option<Shared<Part>>],
) -> Result<Part, OwnStop>
    requires taken { TakesParts node.now.settings whole.now request.now inputs.now }
    ensures made { IfOk result (MakesPart node.now.settings node.now.file whole.now request.now
        inputs.now) }
    ensures cause { IfErr result (MayStop (HasCause node.now.settings node.now.file inputs.now)) }
{
    let first = part_at(inputs, 1);
    match &node.settings {
        Settings::File { array, unit } => file_part(alloc, &node.file, array, *unit),
        Settings::Crop { .. } => Ok(crop_block(alloc, request, first)?),
        Settings::Sample { x, y, z } => Ok(sample_block(alloc, *x, *y, *z, request, first)?),
        Settings::Threshold { lo, hi } => Ok(threshold_block(alloc, lo, hi, request, first)?),
        Settings::Smooth { radius } => Ok(smooth_block(alloc, *radius, whole, request, first)?),
        Settings::Arith { op } => {
            Ok(arith_block(alloc, *op, request, first, part_at(inputs, 2))?)
        }
        Settings::Tets => Ok(tets_piece(alloc, whole, request, first)?),
        Settings::Select { lo, hi, all } => Ok(select_piece(alloc, lo, hi, *all, first)?),
        Settings::Contour { count, levels } => {
            contour_piece(alloc, *count, levels, whole, request, first)
        }
        Settings::Cut { a, b, c, r } => {
            cut_piece(alloc, plane_form(a, b, c, r), whole, request, first)
        }
        Settings::Append => Ok(append_pieces(alloc, inputs)?),
        Settings::Boundary => Ok(boundary_piece(alloc, request, first)?),
        Settings::Merge => Ok(merge_piece(alloc, first)?),
        Settings::Writer { .. } => unreachable!(),
    }
}
