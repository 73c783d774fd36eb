//! The ranks of edges in place of their numbers.

ghost use Rattle.std.specs.Prelude.{◌≡◌, ◌*◌, ◌<◌, ◌≤◌, ◌^◌, All, IfOk, length, map};
ghost use Rattle.viz_flags.specs.Flags.{flags as bits_of, flags_of, set_in, starts};
ghost use Rattle.viz_sheet.specs.Kept.{kept_rank};

use std::alloc::{AllocError, Global};

/// The bits below each of eight.
const BELOW: [u8; 8] = [0, 1, 3, 7, 15, 31, 63, 127];

/// How many flags of a byte are set before one.
fn set_before(mask: u8, flag: usize) -> u32
    requires { flag < 8 }
    ensures value { result ≡ kept_rank (flags_of mask) flag }
    ensures most { result ≤ 8 }
{
    (mask & BELOW[flag]).count_ones()
}

/// The rank of an edge: how many flags are set before its own.
fn rank(flags: &[u8], before: &[u32], number: usize) -> u32
    requires within { number < 8 * length flags.now }
    requires before { before.now ≡ starts flags.now }
    requires few { set_in flags.now < 2 ^ 32 }
    ensures { result ≡ kept_rank (bits_of flags.now) number }
{
    let byte = number / 8;
    before[byte] + set_before(flags[byte], number % 8)
}

/// The ranks of a triangle's edges.
fn three(flags: &[u8], before: &[u32], numbers: [usize; 3]) -> [u32; 3]
    requires within { All (λ n. n < 8 * length flags.now) numbers }
    requires before { before.now ≡ starts flags.now }
    requires few { set_in flags.now < 2 ^ 32 }
    ensures { result ≡ map (kept_rank (bits_of flags.now)) numbers }
{
    let [a, b, c] = numbers;
    [
        rank(flags, before, a),
        rank(flags, before, b),
        rank(flags, before, c),
    ]
}

/// The ranks of a triangle's edges, whose numbers have 32 bits.
fn three_short(flags: &[u8], before: &[u32], numbers: &[u32; 3]) -> [u32; 3]
    requires within { All (λ n. n < 8 * length flags.now) numbers.now }
    requires before { before.now ≡ starts flags.now }
    requires few { set_in flags.now < 2 ^ 32 }
    ensures { result ≡ map (kept_rank (bits_of flags.now)) numbers.now }
{
    let [a, b, c] = *numbers;
    three(flags, before, [a as usize, b as usize, c as usize])
}

/// Ranks in place of numbers of 32 bits.
pub(crate) fn rank_all(triangles: &mut [[u32; 3]], flags: &[u8], before: &[u32])
    requires within { All (All (λ n. n < 8 * length flags.now)) triangles.old }
    requires before { before.now ≡ starts flags.now }
    requires few { set_in flags.now < 2 ^ 32 }
    ensures { triangles.new ≡ map (λ cell. map (kept_rank (bits_of flags.now)) cell) triangles.old }
{
    for i in 0..triangles.len() {
        let ranks = three_short(flags, before, &triangles[i]);
        triangles[i] = ranks;
    }
}

/// The ranks of triangles whose numbers have more bits.
pub(crate) fn ranks_of(
    alloc: Global,
    triangles: &[[usize; 3]],
    flags: &[u8],
    before: &[u32],
) -> Result<Vec<[u32; 3]>, AllocError>
    requires within { All (All (λ n. n < 8 * length flags.now)) triangles.now }
    requires before { before.now ≡ starts flags.now }
    requires few { set_in flags.now < 2 ^ 32 }
    ensures { IfOk result (λ v.
        v.items ≡ map (λ cell. map (kept_rank (bits_of flags.now)) cell) triangles.now) }
{
    let mut ranks = Vec::with_capacity(alloc, triangles.len())?;
    for numbers in triangles {
        ranks.push(three(flags, before, *numbers))?;
    }
    Ok(ranks)
}
