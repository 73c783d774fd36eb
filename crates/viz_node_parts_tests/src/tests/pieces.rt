//! Pieces of meshes: of images, and of other meshes.

use crate::tests::nodes::{Answer, made, piece, told};
use crate::tests::sources::{BOX, BOX_FILE, COLUMN, COLUMN_FILE, source};
use std::test::Fail;
use viz_base::Shared;
use viz_kinds::Settings;
use viz_network::Cause;
use viz_parts::Request;

/// The levels 1 and 51: six triangles round the first corner of the box, and round the last one.
const CORNERS: Settings = Settings::Contour {
    count: 2,
    levels: [1, 51, 0, 0, 0, 0, 0, 0],
};

/// The level 1 twice.
const TWICE: Settings = Settings::Contour {
    count: 2,
    levels: [1, 1, 0, 0, 0, 0, 0, 0],
};

/// The level 2^57.
const WIDE: Settings = Settings::Contour {
    count: 1,
    levels: [144_115_188_075_855_872, 0, 0, 0, 0, 0, 0, 0],
};

/// The plane through the middles of the cubes with the least x.
const CUT: Settings = Settings::Cut {
    a: 2,
    b: 0,
    c: 0,
    r: 1,
};

#[test]
fn pieces_of_an_image(rt: HostRuntime) -> Result<(), Fail> {
    let image = [Some(source(rt.alloc(), BOX_FILE)?)];
    for (settings, asked, want) in [
        (Settings::Tets, (0, 2, 1), Answer::Mesh(1, 27, [24, 24, 0])),
        (Settings::Tets, (1, 2, 0), Answer::Mesh(1, 18, [24, 0, 0])),
        (CORNERS, (0, 2, 1), Answer::Mesh(2, 14, [6, 6, 0])),
        (CORNERS, (1, 2, 0), Answer::Mesh(2, 7, [6, 0, 0])),
        // Eight triangles in each of two squares.
        (CUT, (0, 2, 0), Answer::Mesh(1, 15, [16, 0, 0])),
    ] {
        let made = piece(rt.alloc(), settings, BOX, asked, &image);
        assert_eq!(rt; told(made), want, "{settings:?} {asked:?}");
    }
    Ok(())
}

#[test]
fn a_contour_is_too_wide_in_its_own_piece(rt: HostRuntime) -> Result<(), Fail> {
    let image = [Some(source(rt.alloc(), COLUMN_FILE)?)];
    for (asked, want) in [
        ((0, 4, 0), Answer::Mesh(1, 4, [2, 0, 0])),
        ((3, 4, 0), Answer::Cause(Cause::TooWide)),
    ] {
        let made = piece(rt.alloc(), WIDE, COLUMN, asked, &image);
        assert_eq!(rt; told(made), want, "{asked:?}");
    }
    Ok(())
}

#[test]
fn pieces_of_a_mesh(rt: HostRuntime) -> Result<(), Fail> {
    let image = [Some(source(rt.alloc(), BOX_FILE)?)];
    let solid = piece(rt.alloc(), Settings::Tets, BOX, (0, 2, 2), &image)?;
    let solid = [Some(Shared::new(rt.alloc(), solid)?)];
    for (settings, ghosts, want) in [
        // The six tetrahedra of the first cube, and those of the last one.
        (
            Settings::Select {
                lo: 0,
                hi: 26,
                all: true,
            },
            2,
            Answer::Mesh(1, 8, [6, 0, 0]),
        ),
        (
            Settings::Select {
                lo: 52,
                hi: 52,
                all: false,
            },
            2,
            Answer::Mesh(1, 8, [0, 6, 0]),
        ),
        (CORNERS, 2, Answer::Mesh(2, 14, [6, 6, 0])),
        // In the piece's layer eight triangles below and sixteen round about; in the other layer
        // eight above and as many round about.
        (Settings::Boundary, 0, Answer::Mesh(1, 17, [24, 0, 0])),
        (Settings::Boundary, 1, Answer::Mesh(1, 26, [24, 24, 0])),
    ] {
        let request = Request::Piece { p: 0, n: 2, ghosts };
        let made = made(rt.alloc(), settings, None, request, &solid);
        assert_eq!(rt; told(made), want, "{settings:?} {ghosts}");
    }
    Ok(())
}

#[test]
fn meshes_are_joined_and_merged(rt: HostRuntime) -> Result<(), Fail> {
    let image = [Some(source(rt.alloc(), BOX_FILE)?)];
    let solid = piece(rt.alloc(), Settings::Tets, BOX, (0, 2, 1), &image)?;
    let faces = piece(rt.alloc(), CORNERS, BOX, (0, 2, 1), &image)?;
    let both = [
        Some(Shared::new(rt.alloc(), solid)?),
        None,
        Some(Shared::new(rt.alloc(), faces)?),
    ];
    let request = Request::Piece {
        p: 0,
        n: 2,
        ghosts: 1,
    };
    let joined = made(rt.alloc(), Settings::Append, None, request, &both);
    assert_eq!(rt; told(joined), Answer::Mesh(3, 41, [30, 30, 0]));
    // All points twice.
    let twice = piece(rt.alloc(), TWICE, BOX, (0, 1, 0), &image)?;
    let twice = [Some(Shared::new(rt.alloc(), twice)?)];
    let request = Request::Piece {
        p: 0,
        n: 1,
        ghosts: 0,
    };
    let merged = made(rt.alloc(), Settings::Merge, None, request, &twice);
    assert_eq!(rt; told(merged), Answer::Mesh(1, 7, [12, 0, 0]));
    Ok(())
}
