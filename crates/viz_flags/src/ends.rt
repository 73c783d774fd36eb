//! Triangles by the numbers of their edges, in 32 bits each where these fit.

ghost use Rattle.std.specs.Prelude.{◌≡◌, ◌*◌, ◌<◌, ◌^◌, ℕ, List, All, IfOk, length, map};
ghost use Rattle.viz_flags.specs.Flags.{flags as bits_of, set_in, starts};
ghost use Rattle.viz_sheet.specs.Kept.{kept_rank};

use crate::ranks::{rank_all, ranks_of};
use std::alloc::{AllocError, Global};

/// A triangle by the numbers of its edges. A function that is generic in it has no `match` in its
/// loop.
pub(crate) trait Ends: Copy {
    // The three numbers.
    ghost list: { Self → List ℕ };

    // Numbers below it fit.
    ghost limit: { ℕ };

    /// The triangle of these numbers.
    fn of(numbers: [usize; 3]) -> Self
        requires { All (λ n. n < limit) numbers }
        ensures { list result ≡ numbers };

    /// The numbers.
    fn numbers(self) -> [usize; 3]
        ensures { result ≡ list self };

    /// The triangles by the ranks of their edges, in the same room where that is possible.
    fn ranked(
        alloc: Global,
        triangles: Vec<Self>,
        flags: &[u8],
        before: &[u32],
    ) -> Result<Vec<[u32; 3]>, AllocError>
        requires within { All (λ t. All (λ n. n < 8 * length flags.now) (list t)) triangles.items }
        requires before { before.now ≡ starts flags.now }
        requires few { set_in flags.now < 2 ^ 32 }
        ensures { IfOk result (λ v.
            v.items ≡ map (λ t. map (kept_rank (bits_of flags.now)) (list t)) triangles.items) };
}

impl Ends for [u32; 3] {
    ghost list = { λ t. t };

    ghost limit = { 2 ^ 32 };

    fn of(numbers: [usize; 3]) -> [u32; 3] {
        let [a, b, c] = numbers;
        [a as u32, b as u32, c as u32]
    }

    fn numbers(self) -> [usize; 3] {
        let [a, b, c] = self;
        [a as usize, b as usize, c as usize]
    }

    fn ranked(
        _alloc: Global,
        triangles: Vec<[u32; 3]>,
        flags: &[u8],
        before: &[u32],
    ) -> Result<Vec<[u32; 3]>, AllocError>
        requires within { All (All (λ n. n < 8 * length flags.now)) triangles.items }
        requires before { before.now ≡ starts flags.now }
        requires few { set_in flags.now < 2 ^ 32 }
        ensures { IfOk result (λ v.
            v.items ≡ map (map (kept_rank (bits_of flags.now))) triangles.items) }
    {
        let mut triangles = triangles;
        rank_all(&mut triangles, flags, before);
        Ok(triangles)
    }
}

impl Ends for [usize; 3] {
    ghost list = { λ t. t };

    ghost limit = { 2 ^ 64 };

    fn of(numbers: [usize; 3]) -> [usize; 3] {
        numbers
    }

    fn numbers(self) -> [usize; 3] {
        self
    }

    fn ranked(
        alloc: Global,
        triangles: Vec<[usize; 3]>,
        flags: &[u8],
        before: &[u32],
    ) -> Result<Vec<[u32; 3]>, AllocError>
        requires within { All (All (λ n. n < 8 * length flags.now)) triangles.items }
        requires before { before.now ≡ starts flags.now }
        requires few { set_in flags.now < 2 ^ 32 }
        ensures { IfOk result (λ v.
            v.items ≡ map (map (kept_rank (bits_of flags.now))) triangles.items) }
    {
        ranks_of(alloc, &triangles, flags, before)
    }
}
