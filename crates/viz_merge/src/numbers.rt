//! The leaf of each point: the rank of its group.

ghost use Rattle.std.specs.Prelude.{◌≡◌, ◌<◌, ◌^◌, All, IfOk, length, map, slice_index_or};
ghost use Rattle.std.specs.List.{range_with_len};
ghost use Rattle.viz_sheet.specs.Kept.{kept_rank};
ghost use Rattle.viz_merge.specs.Steps.Leads.{first_marks};

use std::alloc::{AllocError, Global};

/// Which points are the first at their place.
pub(crate) fn first_marks(alloc: Global, leads: &[u32]) -> Result<Vec<bool>, AllocError>
    ensures value { IfOk result (λ v. v.items ≡ first_marks leads.now) }
{
    let mut marks = Vec::with_capacity(alloc, leads.len())?;
    for j in 0..leads.len() {
        marks.push(leads[j] as usize == j)?;
    }
    Ok(marks)
}

/// How many marked items stand before each.
#[tactic(auto, using(viz_sheet::proofs::KeptLemmas::more))]
pub(crate) fn ranks_before(alloc: Global, marks: &[bool]) -> Result<Vec<u32>, AllocError>
    requires { length marks.now < 2 ^ 32 }
    ensures { IfOk result (λ v.
        v.items ≡ map (kept_rank marks.now) (range_with_len 0 (length marks.now))) }
{
    let mut ranks = Vec::with_capacity(alloc, marks.len())?;
    let mut count = 0;
    for mark in marks {
        ranks.push(count)?;
        if *mark {
            count += 1;
        }
    }
    Ok(ranks)
}

/// How many marked items stand before the lead of each point.
pub(crate) fn numbers(alloc: Global, marks: &[bool], leads: &[u32]) -> Result<Vec<u32>, AllocError>
    requires few { length marks.now < 2 ^ 32 }
    requires below { All (λ lead. lead < length marks.now) leads.now }
    ensures value { IfOk result (λ v. v.items ≡ map (kept_rank marks.now) leads.now) }
{
    let before = ranks_before(alloc, marks)?;
    let numbers = looked_up(alloc, &before, leads)?;
    Ok(numbers)
}

/// The number at each of these indices.
fn looked_up(alloc: Global, numbers: &[u32], leads: &[u32]) -> Result<Vec<u32>, AllocError>
    requires { All (λ lead. lead < length numbers.now) leads.now }
    ensures { IfOk result (λ v.
        v.items ≡ map (λ lead. slice_index_or numbers.now lead 0) leads.now) }
{
    let mut found = Vec::with_capacity(alloc, leads.len())?;
    for lead in leads {
        found.push(numbers[*lead as usize])?;
    }
    Ok(found)
}
