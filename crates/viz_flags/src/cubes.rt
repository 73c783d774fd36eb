//! The triangles in one cube, by the numbers of their edges.

ghost use Rattle.std.specs.Prelude.{◌≡◌, ◌+◌, ◌*◌, ◌^◌, ◌<◌, ◌≤◌, ◌++◌, ◌==◌, Bool, List, All};
ghost use Rattle.std.specs.Prelude.{OnOk, map};
ghost use Rattle.std.specs.Int.{bit_at};
ghost use Rattle.viz_grid_section.specs.Steps.Rows.{eight_from, cells_between};
ghost use Rattle.viz_flags.specs.Edges.{cells_by};
ghost use Rattle.viz_mixed.specs.Mixed.{corners_from, is_mixed};

use crate::cases::push_tetrahedron;
use crate::ends::Ends;
use std::alloc::AllocError;

/// Adds the triangles in the cube with this lowest leaf, where it is mixed, where a row and a plane
/// of points are so long: of eight words with a bit for each cube, and of those of mixed cubes, its
/// bit is that with a number.
pub(crate) fn push_cube<T: Ends>(
    out: &mut Vec<T>,
    words: &[u64; 8],
    mixed: u64,
    t: u32,
    lowest: usize,
    row: usize,
    plane: usize,
) -> Result<(), AllocError>
    requires bit { t < 64 }
    requires mixed { (bit_at mixed t == 1) ≡ is_mixed (map (λ word. bit_at word t == 1) words.now) }
    requires fits { 8 * (lowest + 2 + row + plane) ≤ T.limit }
    requires narrow { lowest + 2 + row + plane < 2 ^ 31 }
    ensures { OnOk result ((inside : List Bool)
        → map (λ word. bit_at word t == 1) words.now ≡ corners_from inside row plane lowest
        → cells_by row plane (map T.list out.new.items)
        ≡ cells_by row plane (map T.list out.old.items)
        ++ cells_between inside (eight_from lowest row plane)) }
{
    if !is_set(mixed, t) {
        return Ok(());
    }
    push_six(out, &corners_at(words, t), lowest, row, plane)?;
    Ok(())
}

/// Whether a bit of a word is set.
fn is_set(word: u64, t: u32) -> bool
    requires { t < 64 }
    ensures { result ≡ (bit_at word t == 1) }
{
    word >> t & 1 == 1
}

/// Of eight words with a bit for each cube, the bits of one cube.
fn corners_at(words: &[u64; 8], t: u32) -> [u8; 8]
    requires { t < 64 }
    ensures value { map (λ bit. bit == 1) result ≡ map (λ word. bit_at word t == 1) words.now }
    ensures bits { All (λ bit. bit ≤ 1) result }
{
    let [a, b, c, d, e, f, g, h] = *words;
    [
        bit(a, t),
        bit(b, t),
        bit(c, t),
        bit(d, t),
        bit(e, t),
        bit(f, t),
        bit(g, t),
        bit(h, t),
    ]
}

/// A bit of a word.
fn bit(word: u64, t: u32) -> u8
    requires { t < 64 }
    ensures value { result ≡ bit_at word t }
    ensures most { result ≤ 1 }
{
    (word >> t & 1) as u8
}

/// Adds the triangles in the six tetrahedra of the cube with this lowest leaf, where a row and a
/// plane of points are so long, by a bit for each corner by bits x y z: whether it is inside.
fn push_six<T: Ends>(
    out: &mut Vec<T>,
    corners: &[u8; 8],
    lowest: usize,
    row: usize,
    plane: usize,
) -> Result<(), AllocError>
    requires bits { All (λ bit. bit ≤ 1) corners.now }
    requires fits { 8 * (lowest + 2 + row + plane) ≤ T.limit }
    requires narrow { lowest + 2 + row + plane < 2 ^ 31 }
    ensures { OnOk result ((inside : List Bool)
        → map (λ bit. bit == 1) corners.now ≡ corners_from inside row plane lowest
        → cells_by row plane (map T.list out.new.items)
        ≡ cells_by row plane (map T.list out.old.items)
        ++ cells_between inside (eight_from lowest row plane)) }
{
    let [in_a, in_b, in_c, in_d, in_e, in_f, in_g, in_h] = *corners;
    let a = lowest;
    let b = lowest + plane;
    let c = lowest + row;
    let d = lowest + row + plane;
    let e = lowest + 1;
    let f = lowest + 1 + plane;
    let g = lowest + 1 + row;
    let h = lowest + 1 + row + plane;
    push_tetrahedron(
        out,
        mask(in_a, in_e, in_g, in_h),
        [8 * a, 8 * a + 2, 8 * a + 6, 8 * e + 1, 8 * e + 5, 8 * g + 3],
    )?;
    push_tetrahedron(
        out,
        mask(in_a, in_f, in_e, in_h),
        [8 * a + 4, 8 * a, 8 * a + 6, 8 * e + 3, 8 * f + 1, 8 * e + 5],
    )?;
    push_tetrahedron(
        out,
        mask(in_a, in_g, in_c, in_h),
        [8 * a + 2, 8 * a + 1, 8 * a + 6, 8 * c, 8 * g + 3, 8 * c + 4],
    )?;
    push_tetrahedron(
        out,
        mask(in_a, in_c, in_d, in_h),
        [8 * a + 1, 8 * a + 5, 8 * a + 6, 8 * c + 3, 8 * c + 4, 8 * d],
    )?;
    push_tetrahedron(
        out,
        mask(in_a, in_b, in_f, in_h),
        [8 * a + 3, 8 * a + 4, 8 * a + 6, 8 * b, 8 * b + 2, 8 * f + 1],
    )?;
    push_tetrahedron(
        out,
        mask(in_a, in_d, in_b, in_h),
        [8 * a + 5, 8 * a + 3, 8 * a + 6, 8 * b + 1, 8 * d, 8 * b + 2],
    )?;
    Ok(())
}

/// Which of four points are inside, the first one's bit lowest.
fn mask(a: u8, b: u8, c: u8, d: u8) -> u8
    requires a { a ≤ 1 }
    requires b { b ≤ 1 }
    requires c { c ≤ 1 }
    requires d { d ≤ 1 }
    ensures value { result ≡ a + 2 * (b + 2 * (c + 2 * d)) }
    ensures below { result < 16 }
{
    a + 2 * (b + 2 * (c + 2 * d))
}
