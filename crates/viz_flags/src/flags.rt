//! Flags of edges, eight to a byte.

ghost use Rattle.std.specs.Prelude.{◌≡◌, ◌*◌, ◌<◌, [], ◌∷◌, All, true, IfOk, length, map};
ghost use Rattle.std.specs.Prelude.{slice_set};
ghost use Rattle.std.specs.List.{flat_map};
ghost use Rattle.viz_flags.specs.Flags.{flags as bits_of};
ghost use Rattle.viz_sheet.specs.Kept.{AreMarks};
ghost use Rattle.viz_sheet.specs.Steps.Marking.{IsMarkedBy};

use crate::ends::Ends;
use std::alloc::{AllocError, Global};

/// The flags of the edges of triangles, for so many leaves.
pub(crate) fn flags_of<T: Ends>(
    alloc: Global,
    count: usize,
    triangles: &[T],
) -> Result<Vec<u8>, AllocError>
    requires { All (λ t. All (λ n. n < 8 * count) (T.list t)) triangles.now }
    ensures marks { IfOk result (λ v.
        AreMarks (8 * count) (map T.list triangles.now) (bits_of v.items)) }
    ensures size { IfOk result (λ v. length v.items ≡ count) }
{
    let mut flags = vec![in alloc; 0; count]?;
    set_all(&mut flags, triangles);
    Ok(flags)
}

/// Sets the flags of all edges.
fn set_all<T: Ends>(flags: &mut [u8], triangles: &[T])
    requires { All (λ t. All (λ n. n < 8 * length flags.old) (T.list t)) triangles.now }
    ensures bits { IsMarkedBy (bits_of flags.old) (flat_map T.list triangles.now)
        (bits_of flags.new) }
    ensures size { length flags.new ≡ length flags.old }
{
    for triangle in triangles {
        set_three(flags, triangle.numbers());
    }
}

/// Sets the flags of a triangle's edges.
fn set_three(flags: &mut [u8], numbers: [usize; 3])
    requires { All (λ n. n < 8 * length flags.old) numbers }
    ensures bits { IsMarkedBy (bits_of flags.old) numbers (bits_of flags.new) }
    ensures size { length flags.new ≡ length flags.old }
{
    let [a, b, c] = numbers;
    set_flag(flags, a);
    set_flag(flags, b);
    set_flag(flags, c);
}

/// Sets a flag.
fn set_flag(flags: &mut [u8], number: usize)
    requires { number < 8 * length flags.old }
    ensures bits { bits_of flags.new ≡ slice_set (bits_of flags.old) number true }
    ensures size { length flags.new ≡ length flags.old }
{
    let byte = number / 8;
    let mask = with_bit(flags[byte], (number % 8) as u32);
    flags[byte] = mask;
}

/// A byte with one more bit set.
fn with_bit(mask: u8, bit: u32) -> u8
    requires { bit < 8 }
    ensures { bits_of (result ∷ []) ≡ slice_set (bits_of (mask ∷ [])) bit true }
{
    mask | 1 << bit
}
