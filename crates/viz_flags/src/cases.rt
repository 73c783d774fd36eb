//! The triangles in one tetrahedron, by the numbers of its six edges.

ghost use Rattle.std.specs.Prelude.{◌≡◌, ◌<◌, ◌++◌, [], ◌∷◌, OnOk, All, map, slice_index};
ghost use Rattle.viz_flags.specs.Steps.Cases.{numbered, held};

use crate::ends::Ends;
use std::alloc::AllocError;

/// The triangles of each mask: how many, and the edges of their ends, where the edges between the
/// corners 0 1, 0 2, 0 3, 1 2, 1 3 and 2 3 are numbered so.
#[rattlefmt::skip]
static ROWS: [(u8, [u8; 6]); 16] = [
    (0, [0, 0, 0, 0, 0, 0]),    // none
    (1, [0, 1, 2, 0, 0, 0]),    // 0
    (1, [3, 0, 4, 0, 0, 0]),    // 1
    (2, [1, 2, 4, 1, 4, 3]),    // 0 1
    (1, [1, 3, 5, 0, 0, 0]),    // 2
    (2, [0, 3, 5, 0, 5, 2]),    // 0 2
    (2, [0, 4, 5, 0, 5, 1]),    // 1 2
    (1, [2, 4, 5, 0, 0, 0]),    // 0 1 2
    (1, [4, 2, 5, 0, 0, 0]),    // 3
    (2, [0, 1, 5, 0, 5, 4]),    // 0 3
    (2, [0, 2, 5, 0, 5, 3]),    // 1 3
    (1, [3, 1, 5, 0, 0, 0]),    // 0 1 3
    (2, [1, 3, 4, 1, 4, 2]),    // 2 3
    (1, [0, 3, 4, 0, 0, 0]),    // 0 2 3
    (1, [1, 0, 2, 0, 0, 0]),    // 1 2 3
    (0, [0, 0, 0, 0, 0, 0]),    // all
];

/// Adds the triangles in a tetrahedron with this mask, by the numbers of its six edges.
pub(crate) fn push_tetrahedron<T: Ends>(
    out: &mut Vec<T>,
    mask: u8,
    edges: [usize; 6],
) -> Result<(), AllocError>
    requires below { mask < 16 }
    requires fits { All (λ n. n < T.limit) edges }
    ensures { OnOk result (map T.list out.new.items
        ≡ map T.list out.old.items ++ numbered mask edges) }
{
    let (count, ends) = ROWS[mask as usize];
    push_held(out, count, ends, edges)?;
    Ok(())
}

/// Adds the triangles of a row of the table.
fn push_held<T: Ends>(
    out: &mut Vec<T>,
    count: u8,
    ends: [u8; 6],
    edges: [usize; 6],
) -> Result<(), AllocError>
    requires ends { All (λ end. end < 6) ends }
    requires fits { All (λ n. n < T.limit) edges }
    ensures { OnOk result (map T.list out.new.items
        ≡ map T.list out.old.items ++ held count ends edges) }
{
    let [a, b, c, d, e, f] = ends;
    if count == 0 {
        return Ok(());
    }
    push_triangle(out, edges, a, b, c)?;
    if count == 1 {
        return Ok(());
    }
    push_triangle(out, edges, d, e, f)?;
    Ok(())
}

/// Adds the triangle between three of six edges.
fn push_triangle<T: Ends>(
    out: &mut Vec<T>,
    edges: [usize; 6],
    a: u8,
    b: u8,
    c: u8,
) -> Result<(), AllocError>
    requires a { a < 6 }
    requires b { b < 6 }
    requires c { c < 6 }
    requires fits { All (λ n. n < T.limit) edges }
    ensures { OnOk result (map T.list out.new.items
        ≡ map T.list out.old.items
        ++ (slice_index edges a ∷ slice_index edges b ∷ slice_index edges c ∷ []) ∷ []) }
{
    out.push(T::of([edges[a as usize], edges[b as usize], edges[c as usize]]))?;
    Ok(())
}
