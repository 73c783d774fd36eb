//! What is left of lists where some items are marked.

ghost use Rattle.std.specs.Prelude.{◌≡◌, ◌≤◌, ◌^◌, length, map, IfOk};
ghost use Rattle.std.specs.List.{range_with_len};
ghost use Rattle.viz_sheet.specs.Arrays.{names_in, points_in};
ghost use Rattle.viz_sheet.specs.Kept.{kept, kept_rank};

use crate::leaves::Leaves;
use crate::places::Places;
use std::alloc::{AllocError, Global};

/// The marked names, of which there are `count`.
pub(crate) fn kept_leaves(
    alloc: Global,
    count: usize,
    marks: &[bool],
    leaves: &Leaves,
) -> Result<Leaves, AllocError>
    requires { length marks.now ≡ length (names_in leaves.now) }
    ensures { IfOk result (λ l. names_in l ≡ kept marks.now (names_in leaves.now)) }
{
    match leaves {
        Leaves::One(names) => Ok(Leaves::One(kept_items(alloc, count, marks, names)?)),
        Leaves::Two(names) => Ok(Leaves::Two(kept_items(alloc, count, marks, names)?)),
        Leaves::Four(names) => Ok(Leaves::Four(kept_items(alloc, count, marks, names)?)),
        Leaves::Eight(names) => Ok(Leaves::Eight(kept_items(alloc, count, marks, names)?)),
    }
}

/// The points of the marked names, of which there are `count`.
pub(crate) fn kept_places(
    alloc: Global,
    count: usize,
    marks: &[bool],
    places: &Places,
) -> Result<Places, AllocError>
    requires { length marks.now ≡ length (points_in places.now) }
    ensures { IfOk result (λ p. points_in p ≡ kept marks.now (points_in places.now)) }
{
    match places {
        Places::Small(points) => Ok(Places::Small(kept_items(alloc, count, marks, points)?)),
        Places::Wide(points) => Ok(Places::Wide(kept_items(alloc, count, marks, points)?)),
    }
}

/// The marked items, with room for so many.
#[tactic(auto, using(crate::proofs::KeptLemmas::more))]
fn kept_items<T: Copy + Drop>(
    alloc: Global,
    room: usize,
    marks: &[bool],
    items: &[T],
) -> Result<Vec<T>, AllocError>
    requires { length marks.now ≡ length items.now }
    ensures { IfOk result (λ v. v.items ≡ kept marks.now items.now) }
{
    let mut left = Vec::with_capacity(alloc, room)?;
    for (i, item) in items.iter().enumerate() {
        if marks[i] {
            left.push(*item)?;
        }
    }
    Ok(left)
}

/// How many items are marked.
#[tactic(auto, using(crate::proofs::KeptLemmas::more))]
pub(crate) fn kept_count(marks: &[bool]) -> usize
    ensures { result ≡ kept_rank marks.now (length marks.now) }
{
    let mut count = 0;
    for mark in marks {
        if *mark {
            count += 1;
        }
    }
    count
}

/// How many marked items stand before each.
#[tactic(auto, using(crate::proofs::KeptLemmas::more))]
pub(crate) fn kept_ranks(alloc: Global, marks: &[bool]) -> Result<Vec<u32>, AllocError>
    requires { length marks.now ≤ 2 ^ 32 }
    ensures { IfOk result (λ v.
        v.items ≡ map (kept_rank marks.now) (range_with_len 0 (length marks.now))) }
{
    let mut ranks = Vec::with_capacity(alloc, marks.len())?;
    let mut count: u64 = 0;
    for mark in marks {
        ranks.push(count as u32)?;
        if *mark {
            count += 1;
        }
    }
    Ok(ranks)
}
