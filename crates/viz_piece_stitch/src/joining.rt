//! Parts of a sheet, one after the other, joined by the ranks of their names.

ghost use Rattle.std.specs.Prelude.{◌≡◌, ◌≤◌, ◌^◌, ◌++◌, All, IfOk, length, map};
ghost use Rattle.viz_sheet.specs.Arrays.{names_in, points_in, ranks_in};
ghost use Rattle.viz_sheet.specs.Ranked.{rank_of};
ghost use Rattle.viz_sheet.specs.Sheet.{AreAscending};
ghost use Rattle.viz_piece_stitch.specs.Steps.Joining.{AreJoined, IsHeld, own_ranks};
ghost use Rattle.viz_piece_stitch.specs.Steps.Put.{IsPut};

use crate::cells::with_own;
use crate::places::put_points;
use crate::ranks::ranks_among;
use crate::shared_sheet::SharedSheet;
use std::alloc::{AllocError, Global};
use viz_parts::PartSheet;
use viz_sheet::{Leaves, Places, Ranks};

/// What the parts so far have given: the points of their names, and their own cells.
#[derive(Debug, Drop)]
pub(crate) struct Joined {
    pub(crate) places: Places,
    pub(crate) ranks: Ranks,
}

/// Joins a part: its points at the ranks of its names, and its own cells.
fn with_part(
    alloc: Global,
    names: &Leaves,
    joined: Joined,
    part: &PartSheet,
) -> Result<Joined, AllocError>
    requires ascending { AreAscending (names_in names.now) }
    requires few { length (names_in names.now) ≤ 2 ^ 32 }
    requires within { length (points_in joined.places) ≤ length (names_in names.now) }
    requires held { IsHeld (names_in names.now) part.now }
    ensures cells { IfOk result (λ j.
        ranks_in j.ranks ≡ ranks_in joined.ranks ++ own_ranks (names_in names.now) part.now) }
    ensures points { IfOk result (λ j. IsPut (points_in joined.places)
        (map (rank_of (names_in names.now)) part.now.sheet.names) part.now.sheet.points
        (points_in j.places)) }
{
    let sheet = part.sheet();
    sheet.known();
    let numbers = ranks_among(alloc, names, sheet.leaves())?;
    let Joined { places, ranks } = joined;
    let places = put_points(alloc, places, names.len(), &numbers, sheet.places())?;
    let ranks = with_own(alloc, ranks, &numbers, sheet.ranks(), part)?;
    Ok(Joined { places, ranks })
}

/// The same of a part that is given up.
fn with_given(
    alloc: Global,
    names: &Leaves,
    joined: Joined,
    part: SharedSheet,
) -> Result<Joined, AllocError>
    requires ascending { AreAscending (names_in names.now) }
    requires few { length (names_in names.now) ≤ 2 ^ 32 }
    requires within { length (points_in joined.places) ≤ length (names_in names.now) }
    requires held { IsHeld (names_in names.now) part }
    ensures cells { IfOk result (λ j.
        ranks_in j.ranks ≡ ranks_in joined.ranks ++ own_ranks (names_in names.now) part) }
    ensures points { IfOk result (λ j. IsPut (points_in joined.places)
        (map (rank_of (names_in names.now)) part.sheet.names) part.sheet.points
        (points_in j.places)) }
{
    with_part(alloc, names, joined, part.get())
}

/// Joins all parts, each of which is given up as soon as it is joined.
pub(crate) fn with_parts(
    alloc: Global,
    names: &Leaves,
    joined: Joined,
    parts: Vec<SharedSheet>,
) -> Result<Joined, AllocError>
    requires ascending { AreAscending (names_in names.now) }
    requires few { length (names_in names.now) ≤ 2 ^ 32 }
    requires within { length (points_in joined.places) ≤ length (names_in names.now) }
    requires held { All (IsHeld (names_in names.now)) parts.items }
    ensures { IfOk result (λ j. AreJoined parts.items (names_in names.now) (ranks_in joined.ranks)
        (length parts.items) (ranks_in j.ranks) (points_in j.places)) }
{
    let mut joined = joined;
    for part in parts {
        joined = with_given(alloc, names, joined, part)?;
    }
    Ok(joined)
}
