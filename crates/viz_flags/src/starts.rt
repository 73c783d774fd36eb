//! How many flags are set before each byte.

ghost use Rattle.std.specs.Prelude.{◌≡◌, ◌+◌, ◌≤◌, [], ◌∷◌, IfOk};
ghost use Rattle.viz_flags.specs.Flags.{flags as bits_of, set_in, starts};
ghost use Rattle.viz_sheet.specs.Kept.{kept_rank};

use std::alloc::{AllocError, Global};

/// How many flags are set before each byte, and in all.
#[derive(Debug, Drop)]
pub(crate) struct Starts {
    pub(crate) before: Vec<u32>,
    pub(crate) count: u32,
}

/// How many flags are set before each byte. More than 32 bits can count are want of memory.
pub(crate) fn starts_of(alloc: Global, flags: &[u8]) -> Result<Starts, AllocError>
    ensures before { IfOk result (λ s. s.before.items ≡ starts flags.now) }
    ensures count { IfOk result (λ s. s.count ≡ set_in flags.now) }
{
    let mut before = Vec::with_capacity(alloc, flags.len())?;
    let mut count: u32 = 0;
    for mask in flags {
        before.push(count)?;
        count = with_set(count, *mask)?;
    }
    Ok(Starts { before, count })
}

/// A count with the flags of a byte that are set.
fn with_set(count: u32, mask: u8) -> Result<u32, AllocError>
    ensures { IfOk result (λ n. n ≡ count + kept_rank (bits_of (mask ∷ [])) 8) }
{
    count.checked_add(all_set(mask)).ok_or(AllocError)
}

/// How many flags of a byte are set.
fn all_set(mask: u8) -> u32
    ensures value { result ≡ kept_rank (bits_of (mask ∷ [])) 8 }
    ensures most { result ≤ 8 }
{
    mask.count_ones()
}
