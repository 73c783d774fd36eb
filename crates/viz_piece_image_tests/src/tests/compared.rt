//! What is made of each piece of images of 3 to 5 points a side, against a plain slow program.

use crate::tests::images::{image_with, mixed_numbers};
use crate::tests::pieces::{sections_of, tets_of};
use std::alloc::Global;
use std::process::Abort;
use std::test::Fail;
use viz_column::Kind8;
use viz_dataset::Image;
use viz_fraction::Form;
use viz_parts::Part;
use viz_piece_plain::{Piece, is_piece};

/// What is made of an image.
#[derive(Clone, Copy, Debug)]
enum Filter {
    Tets,
    /// By a contour and by a plane.
    Sections,
}

/// A contour at 50, and a slanted plane.
const FORMS: [Form; 2] = [
    Form {
        a: 0,
        b: 0,
        c: 0,
        q: 1,
        r: 50,
    },
    Form {
        a: 2,
        b: -1,
        c: 1,
        q: 0,
        r: 4,
    },
];

// What is made for a piece of an image.
fn made_piece(
    alloc: Global,
    image: &Image,
    filter: Filter,
    (p, n, ghosts): (u32, u32, u32),
) -> Result<Part, Fail> {
    if p >= n {
        return Err("a piece of some")?;
    }
    match filter {
        Filter::Tets => Ok(tets_of(alloc, image, p, n, ghosts)?),
        Filter::Sections => Ok(sections_of(alloc, image, p, n, ghosts, &FORMS)?),
    }
}

/// How many tetrahedra a layer of cubes has.
pub(super) fn layer_size([x0, x1, y0, y1, _, _]: [u32; 6]) -> u32 {
    let cubes = x1.saturating_sub(x0).saturating_mul(y1.saturating_sub(y0));
    cubes.saturating_mul(6)
}

// What is made for each piece of an image is that piece of what is made of the image.
fn shows_pieces(
    rt: &impl Abort,
    alloc: Global,
    bounds: [u32; 6],
    filter: Filter,
) -> Result<(), Fail> {
    let image = image_with(alloc, Kind8::U8, bounds, &mixed_numbers(alloc, bounds)?)?;
    let input = made_piece(alloc, &image, Filter::Tets, (0, 1, 0))?;
    let made = made_piece(alloc, &image, filter, (0, 1, 0))?;
    for n in 1..8 {
        for p in 0..n {
            for ghosts in 0..3 {
                let part = made_piece(alloc, &image, filter, (p, n, ghosts))?;
                let asked = Piece {
                    p,
                    n,
                    ghosts,
                    unit: layer_size(bounds),
                    fewer: 0,
                };
                let found = is_piece(alloc, &input, &made, &part, asked)?;
                assert!(rt; found, "{filter:?} {asked:?} {bounds:?}");
            }
        }
    }
    Ok(())
}

#[test]
fn pieces_go_by_layers(rt: HostRuntime) -> Result<(), Fail> {
    for bounds in [
        [0, 2, 0, 2, 0, 2],
        // Other sides, and an extent that begins elsewhere.
        [1, 3, 0, 3, 2, 6],
        [0, 4, 5, 7, 1, 4],
        // Five points along each side.
        [0, 4, 0, 4, 0, 4],
        // A single plane, which has no layer.
        [0, 2, 0, 2, 3, 3],
    ] {
        shows_pieces(&rt, rt.alloc(), bounds, Filter::Tets)?;
        shows_pieces(&rt, rt.alloc(), bounds, Filter::Sections)?;
    }
    Ok(())
}
