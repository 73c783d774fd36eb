//! Pieces of what filters of meshes make of the parts at the ports.

ghost use Rattle.std.specs.Prelude.{◌≡◌, All, IfOk};
ghost use Rattle.std.specs.Option.{option_copied};
ghost use Rattle.viz_node_parts.specs.Made.{MakesBoundary, MakesOf};
ghost use Rattle.viz_node_parts.specs.Taken.{TakesMesh, TakesPiece, parts_fed};
ghost use Rattle.viz_piece_divisions.specs.Answers.{
  IsAppendedAnswer,
  IsMergedAnswer,
  IsOfMesh,
  IsSelectedAnswer,
};

use crate::ports::{mesh_of, parts_fed, piece_of};
use std::alloc::{AllocError, Global};
use viz_base::Shared;
use viz_mesh_parts::{append_parts, boundary_part, merge_part, select_part};
use viz_parts::{Part, Request};

/// A piece of the selection.
pub fn select_piece(
    alloc: Global,
    lo: &i64,
    hi: &i64,
    all: bool,
    input: Option<&Part>,
) -> Result<Part, AllocError>
    requires taken { TakesMesh (option_copied input) }
    ensures made { IfOk result (MakesOf (IsSelectedAnswer all lo.now hi.now)
        (option_copied input.entry)) }
{
    select_part(alloc, mesh_of(input), *lo, *hi, all)
}

/// A piece of the boundary.
pub fn boundary_piece(
    alloc: Global,
    request: &Request,
    input: Option<&Part>,
) -> Result<Part, AllocError>
    requires taken { TakesPiece request.now (option_copied input) }
    ensures made { IfOk result (MakesBoundary request.now (option_copied input.entry)) }
{
    let (_, _, ghosts) = piece_of(request);
    boundary_part(alloc, mesh_of(input), ghosts)
}

/// The merge.
pub fn merge_piece(alloc: Global, input: Option<&Part>) -> Result<Part, AllocError>
    requires taken { TakesMesh (option_copied input) }
    ensures made { IfOk result (MakesOf IsMergedAnswer (option_copied input.entry)) }
{
    merge_part(alloc, mesh_of(input))
}

/// The pieces at all ports, joined.
pub fn append_pieces(alloc: Global, inputs: &[Option<Shared<Part>>]) -> Result<Part, AllocError>
    requires taken { All IsOfMesh (parts_fed inputs.now) }
    ensures made { IfOk result (IsAppendedAnswer (parts_fed inputs.now)) }
{
    let parts = parts_fed(alloc, inputs)?;
    append_parts(alloc, &parts)
}
