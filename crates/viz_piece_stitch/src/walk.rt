//! Ranks among all names by one walk over them.
ghost use Rattle.std.specs.Prelude.{◌≡◌, ◌≤◌, IfOk, length, map};
ghost use Rattle.std.specs.Cmp.Lexicographic.{slice_cmp};
ghost use Rattle.std.specs.Ordering.{nat_cmp, is_lt};
ghost use Rattle.viz_sheet.specs.Ranked.{rank_of};
ghost use Rattle.viz_sheet.specs.Sheet.{AreAscending};
ghost use Rattle.viz_piece_stitch.specs.Steps.Walk.{AreAmong, ComeBefore, PrecedeFrom};

use std::alloc::{AllocError, Global};

/// Whether a name comes before another.
fn comes_before<const N: usize>(name: &[u32; N], other: &[u32; N]) -> bool
    ensures { result ≡ is_lt (slice_cmp nat_cmp name.now other.now) }
{
    name.cmp(other).is_lt()
}

/// Where the first name stands that isn't before this one, of those from a place on.
fn first_from<const N: usize>(names: &[[u32; N]], at: usize, name: &[u32; N]) -> usize
    requires ascending { AreAscending names.now }
    requires within { at ≤ length names.now }
    requires before { ComeBefore names.now at name.now }
    ensures value { result ≡ rank_of names.now name.now }
    ensures within { result ≤ length names.now }
    ensures before { ComeBefore names.now result name.now }
{
    for index in at..names.len() {
        if !comes_before(&names[index], name) {
            return index;
        }
    }
    names.len()
}

/// Where the first name stands that isn't before this one, by a search.
fn first_of<const N: usize>(names: &[[u32; N]], name: &[u32; N]) -> usize
    requires ascending { AreAscending names.now }
    ensures within { result ≤ length names.now }
    ensures before { ComeBefore names.now result name.now }
{
    match names.binary_search(name) {
        Ok(index) => index,
        Err(index) => index,
    }
}

/// Where a walk for these names begins.
fn start_of<const N: usize>(names: &[[u32; N]], piece: &[[u32; N]]) -> usize
    requires ascending { AreAscending names.now }
    requires rising { AreAscending piece.now }
    ensures within { result ≤ length names.now }
    ensures before { PrecedeFrom names.now result piece.now 0 }
{
    match piece.first() {
        Some(name) => first_of(names, name),
        None => 0,
    }
}

/// The ranks of a piece's names among all names, by one walk over both.
pub(crate) fn ranks_by_walk<const N: usize>(
    alloc: Global,
    names: &[[u32; N]],
    piece: &[[u32; N]],
) -> Result<Vec<u32>, AllocError>
    requires { AreAmong names.now piece.now }
    ensures { IfOk result (λ v. v.items ≡ map (rank_of names.now) piece.now) }
{
    let mut ranks = Vec::with_capacity(alloc, piece.len())?;
    let mut at = start_of(names, piece);
    for name in piece {
        at = first_from(names, at, name);
        ranks.push(at as u32)?;
    }
    Ok(ranks)
}
