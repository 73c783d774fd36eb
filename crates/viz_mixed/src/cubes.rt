//! Mixed cubes, 64 at a time.

ghost use Rattle.std.specs.Prelude.{◌≡◌, ◌+◌, ◌==◌, ◌<◌, ◌≤◌, ◌++◌, IfOk, OnOk, length, map};
ghost use Rattle.std.specs.Int.{bit_at};
ghost use Rattle.std.specs.List.{range_with_len};
ghost use Rattle.viz_extent.specs.Extent.{count_of, plane_size, size_x};
ghost use Rattle.viz_kuhn.specs.Cubes.{HasNext, lowest_in_layer, lowest_in_row};
ghost use Rattle.viz_mixed.specs.Mixed.{corner_flags, is_mixed, mixed_cubes, mixed_from};

use crate::corners::{corner_words, mixed_of};
use std::alloc::{AllocError, Global};
use viz_extent::Extent;
use viz_lanes::Bits;

/// Of each cube, whether it is mixed, by the points' flags.
pub(crate) fn mixed_cubes(alloc: Global, whole: &Extent, flags: &Bits) -> Result<Bits, AllocError>
    requires full { length flags.now ≡ count_of whole.now }
    ensures { IfOk result (λ bits. bits ≡ mixed_cubes whole.now flags.now) }
{
    let [_, _, _, _, z0, z1] = whole.bounds();
    let mut out = Bits::new(alloc);
    for k in z0..z1 {
        push_layer(&mut out, whole, flags, k)?;
    }
    Ok(out)
}

/// Adds those in the layer that begins at an index along z.
fn push_layer(out: &mut Bits, whole: &Extent, flags: &Bits, k: u32) -> Result<(), AllocError>
    requires full { length flags.now ≡ count_of whole.now }
    requires z { HasNext whole.now.z0 whole.now.z1 k }
    ensures { OnOk result (out.new ≡ out.old
        ++ map (λ at. is_mixed (corner_flags whole.now flags.now at))
        (lowest_in_layer whole.now k)) }
{
    let [_, _, y0, y1, _, _] = whole.bounds();
    for j in y0..y1 {
        push_row(out, whole, flags, j, k)?;
    }
    Ok(())
}

/// Adds those in the row that begins at indices along y and z.
fn push_row(out: &mut Bits, whole: &Extent, flags: &Bits, j: u32, k: u32) -> Result<(), AllocError>
    requires full { length flags.now ≡ count_of whole.now }
    requires y { HasNext whole.now.y0 whole.now.y1 j }
    requires z { HasNext whole.now.z0 whole.now.z1 k }
    ensures { OnOk result (out.new ≡ out.old
        ++ map (λ at. is_mixed (corner_flags whole.now flags.now at))
        (lowest_in_row whole.now j k)) }
{
    let [x0, x1, y0, y1, _, _] = whole.bounds();
    let row = (x1 - x0) as usize + 1;
    let plane = row * ((y1 - y0) as usize + 1);
    let first = whole.index_of(x0, j, k) as usize;
    push_from(out, flags, first, row - 1, row, plane)?;
    Ok(())
}

/// Adds those of so many cubes along x from a leaf on, where a row and a plane of points are so
/// long.
fn push_from(
    out: &mut Bits,
    flags: &Bits,
    first: usize,
    across: usize,
    row: usize,
    plane: usize,
) -> Result<(), AllocError>
    requires within { first + across + row + plane < length flags.now }
    ensures { OnOk result (out.new ≡ out.old
        ++ map (λ i. mixed_from flags.now row plane (first + i)) (range_with_len 0 across)) }
{
    // So many flags there are, in 64 bits.
    let _count = flags.len();
    let mut at = 0;
    while at < across {
        let count = (across - at).min(64);
        push_word(out, flags, first + at, count, row, plane)?;
        at += count;
    }
    Ok(())
}

/// Adds those of up to 64 cubes.
fn push_word(
    out: &mut Bits,
    flags: &Bits,
    lowest: usize,
    count: usize,
    row: usize,
    plane: usize,
) -> Result<(), AllocError>
    requires within { lowest + 1 + row + plane < length flags.now }
    requires most { count ≤ 64 }
    ensures { OnOk result (out.new ≡ out.old
        ++ map (λ i. mixed_from flags.now row plane (lowest + i)) (range_with_len 0 count)) }
{
    let word = mixed_of(&corner_words(flags, lowest, row, plane));
    for t in 0..count as u32 {
        out.push(is_set(word, t))?;
    }
    Ok(())
}

/// Whether a bit of a word is set.
fn is_set(word: u64, t: u32) -> bool
    requires { t < 64 }
    ensures { result ≡ (bit_at word t == 1) }
{
    word >> t & 1 == 1
}
