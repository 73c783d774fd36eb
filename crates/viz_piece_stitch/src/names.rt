//! The names of all parts of a sheet.

ghost use Rattle.std.specs.Prelude.{◌≡◌, ◌≤◌, ◌^◌, ◌++◌, [], IfOk, IsTrue, length, flat_map};
ghost use Rattle.viz_sheet.specs.Arrays.{names_in};
ghost use Rattle.viz_piece_stitch.specs.Steps.Walk.{AreUnited};

use crate::shared_sheet::SharedSheet;
use crate::union::united;
use std::alloc::{AllocError, Global};
use viz_sheet::Leaves;

/// The names of all parts, each once, ascending.
///
/// Parts of one sheet have names of one level. Names of two levels, as no sheet has them, and more
/// than 2^32 names are answered as want of memory.
pub(crate) fn all_names(alloc: Global, parts: &[SharedSheet]) -> Result<Leaves, AllocError>
    ensures united { IfOk result (λ l.
        AreUnited (flat_map (λ p. p.sheet.names) parts.now) (names_in l)) }
    ensures few { IfOk result (λ l. length (names_in l) ≤ 2 ^ 32) }
{
    let names = united_leaves(end_to_end(alloc, parts)?)?;
    if names.len() as u64 > 1 << 32 {
        return Err(AllocError);
    }
    Ok(names)
}

/// Names in any order, each once, ascending.
fn united_leaves(leaves: Leaves) -> Result<Leaves, AllocError>
    ensures { IfOk result (λ l. AreUnited (names_in leaves) (names_in l)) }
{
    match leaves {
        Leaves::One(names) => Ok(Leaves::One(united(names)?)),
        Leaves::Two(names) => Ok(Leaves::Two(united(names)?)),
        Leaves::Four(names) => Ok(Leaves::Four(united(names)?)),
        Leaves::Eight(names) => Ok(Leaves::Eight(united(names)?)),
    }
}

/// The names of all parts, one after the other.
fn end_to_end(alloc: Global, parts: &[SharedSheet]) -> Result<Leaves, AllocError>
    ensures { IfOk result (λ l. names_in l ≡ flat_map (λ p. p.sheet.names) parts.now) }
{
    let mut names = of_one_level(alloc, name_count(parts), parts)?;
    for part in parts {
        if !add_names(&mut names, part.get().sheet().leaves())? {
            return Err(AllocError);
        }
    }
    Ok(names)
}

/// How many names the parts have in all; room is taken for so many.
fn name_count(parts: &[SharedSheet]) -> usize {
    let mut count: usize = 0;
    for part in parts {
        count = count.saturating_add(part.get().sheet().point_count());
    }
    count
}

/// No names yet, with room for so many of the level of the parts' names.
fn of_one_level(alloc: Global, room: usize, parts: &[SharedSheet]) -> Result<Leaves, AllocError>
    ensures { IfOk result (λ l. names_in l ≡ []) }
{
    for part in parts {
        let leaves = part.get().sheet().leaves();
        if leaves.len() > 0 {
            return of_level(alloc, room, leaves);
        }
    }
    Ok(Leaves::One(Vec::new(alloc)))
}

/// No names yet, with room for so many of the level of these.
fn of_level(alloc: Global, room: usize, leaves: &Leaves) -> Result<Leaves, AllocError>
    ensures { IfOk result (λ l. names_in l ≡ []) }
{
    match leaves {
        Leaves::One(_) => Ok(Leaves::One(Vec::with_capacity(alloc, room)?)),
        Leaves::Two(_) => Ok(Leaves::Two(Vec::with_capacity(alloc, room)?)),
        Leaves::Four(_) => Ok(Leaves::Four(Vec::with_capacity(alloc, room)?)),
        Leaves::Eight(_) => Ok(Leaves::Eight(Vec::with_capacity(alloc, room)?)),
    }
}

/// Adds names of the same level, or none; whether they are of that level.
fn add_names(names: &mut Leaves, more: &Leaves) -> Result<bool, AllocError>
    ensures { IfOk result (λ same. IsTrue same
        → names_in names.new ≡ names_in names.old ++ names_in more.now) }
{
    match names {
        Leaves::One(names) => add_ones(names, more),
        Leaves::Two(names) => add_twos(names, more),
        Leaves::Four(names) => add_fours(names, more),
        Leaves::Eight(names) => add_eights(names, more),
    }
}

/// The same of names of 1 leaf.
#[tactic(auto, using(crate::proofs::NameLemmas::none_added))]
fn add_ones(names: &mut Vec<[u32; 1]>, more: &Leaves) -> Result<bool, AllocError>
    ensures { IfOk result (λ same. IsTrue same
        → names.new.items ≡ names.old.items ++ names_in more.now) }
{
    if let Leaves::One(more) = more {
        names.extend_from_slice(more)?;
        return Ok(true);
    }
    Ok(more.len() == 0)
}

/// The same of names of 2 leaves.
#[tactic(auto, using(crate::proofs::NameLemmas::none_added))]
fn add_twos(names: &mut Vec<[u32; 2]>, more: &Leaves) -> Result<bool, AllocError>
    ensures { IfOk result (λ same. IsTrue same
        → names.new.items ≡ names.old.items ++ names_in more.now) }
{
    if let Leaves::Two(more) = more {
        names.extend_from_slice(more)?;
        return Ok(true);
    }
    Ok(more.len() == 0)
}

/// The same of names of 4 leaves.
#[tactic(auto, using(crate::proofs::NameLemmas::none_added))]
fn add_fours(names: &mut Vec<[u32; 4]>, more: &Leaves) -> Result<bool, AllocError>
    ensures { IfOk result (λ same. IsTrue same
        → names.new.items ≡ names.old.items ++ names_in more.now) }
{
    if let Leaves::Four(more) = more {
        names.extend_from_slice(more)?;
        return Ok(true);
    }
    Ok(more.len() == 0)
}

/// The same of names of 8 leaves.
#[tactic(auto, using(crate::proofs::NameLemmas::none_added))]
fn add_eights(names: &mut Vec<[u32; 8]>, more: &Leaves) -> Result<bool, AllocError>
    ensures { IfOk result (λ same. IsTrue same
        → names.new.items ≡ names.old.items ++ names_in more.now) }
{
    if let Leaves::Eight(more) = more {
        names.extend_from_slice(more)?;
        return Ok(true);
    }
    Ok(more.len() == 0)
}
