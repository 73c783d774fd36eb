//! Strips of few triangles, by hand.

ghost use Rattle.std.specs.Prelude.{◌≡◌, All, true};
ghost use Rattle.viz_strip.specs.Strips.{IsTriangle};

use std::alloc::Global;
use viz_strip::{Strip, strips};

// The three names are different.
fn is_triangle(triangle: &[u64; 3]) -> bool
    ensures { result ≡ true → IsTriangle triangle.now }
{
    let [a, b, c] = *triangle;
    a != b && a != c && b != c
}

// The same of each triangle.
fn are_triangles(triangles: &[[u64; 3]]) -> bool
    ensures { result ≡ true → All IsTriangle triangles.now }
{
    for triangle in triangles {
        if !is_triangle(triangle) {
            return false;
        }
    }
    true
}

// The strips of triangles.
fn made(alloc: Global, triangles: &[[u64; 3]]) -> Option<Vec<Strip>> {
    if !are_triangles(triangles) {
        return None;
    }
    strips(alloc, triangles).ok()
}

// Whether strips have these names.
fn have(strips: &[Strip], want: &[&[u64]]) -> bool {
    if strips.len() != want.len() {
        return false;
    }
    for (strip, names) in strips.iter().zip(want) {
        if strip.names.as_slice() != *names {
            return false;
        }
    }
    true
}

// Whether the strips of triangles have these names.
fn gives(alloc: Global, triangles: &[[u64; 3]], want: &[&[u64]]) -> bool {
    match made(alloc, triangles) {
        Some(strips) => have(&strips, want),
        None => false,
    }
}

/// Triangles, and the strips that they make.
#[rattlefmt::skip]
const ROWS: [(&[[u64; 3]], &[&[u64]]); 12] = [
    // None, one, and two apart.
    (&[], &[]),
    (&[[2, 0, 1]], &[&[2, 0, 1]]),
    (&[[0, 1, 2], [3, 4, 5]], &[&[0, 1, 2], &[3, 4, 5]]),
    // A square begins with its second rotation.
    (&[[0, 1, 2], [0, 2, 3]], &[&[1, 2, 0, 3]]),
    // The first rotation is used where another one would go on too.
    (&[[0, 1, 2], [2, 1, 3], [0, 2, 4]], &[&[0, 1, 2, 3], &[0, 2, 4]]),
    // Each other triangle of a strip is turned.
    (&[[0, 1, 2], [2, 1, 3], [2, 3, 4]], &[&[0, 1, 2, 3, 4]]),
    // The surface of a tetrahedron is one strip.
    (&[[0, 2, 1], [0, 1, 3], [1, 2, 3], [2, 0, 3]], &[&[0, 2, 1, 3, 0, 2]]),
    // The contour of one corner.
    (&[[1, 0, 3], [5, 0, 1], [3, 0, 2], [2, 0, 6], [4, 0, 5], [6, 0, 4]],
        &[&[1, 0, 3, 2], &[1, 5, 0, 4, 6], &[2, 0, 6]]),
    // Of triangles on one side the first one left is taken, and a triangle that occurs twice twice.
    (&[[0, 1, 2], [0, 1, 3], [1, 0, 4], [1, 0, 5], [0, 1, 2]],
        &[&[2, 0, 1, 4], &[3, 0, 1, 5], &[0, 1, 2]]),
    // Neighbours that run through a shared side the same way don't continue each other.
    (&[[0, 1, 2], [1, 2, 3]], &[&[0, 1, 2], &[1, 2, 3]]),
    // Six squares.
    (&[[0, 1, 5], [0, 5, 4], [1, 2, 6], [1, 6, 5], [2, 3, 7], [2, 7, 6],
        [4, 5, 9], [4, 9, 8], [5, 6, 10], [5, 10, 9], [6, 7, 11], [6, 11, 10]],
        &[&[0, 1, 5, 6, 10, 11], &[0, 5, 4, 9, 8], &[1, 2, 6, 7, 11], &[2, 3, 7], &[5, 10, 9]]),
    // Names may be any numbers.
    (&[[u64::MAX, 7, 1 << 40], [u64::MAX, 1 << 40, 9]], &[&[7, 1 << 40, u64::MAX, 9]]),
];

#[test]
fn triangles_are_made_into_strips(rt: HostRuntime) {
    for (triangles, want) in &ROWS {
        assert!(rt;
            gives(rt.alloc(), triangles, want),
            "{triangles:?} {want:?}"
        );
    }
}
