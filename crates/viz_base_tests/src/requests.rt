//! Requests, reckoned by hand.

use std::test::Fail;
use viz_base::Pick;
use viz_extent::Extent;
use viz_kinds::{Kind, Settings};
use viz_parts::Request;
use viz_requests::{asked, requests_of, serves, widened};

// An image of 7 planes, so of 6 layers.
const WHOLE: [u32; 6] = [0, 9, 0, 4, 2, 8];

// The bounds of a kept block.
const KEPT: [u32; 6] = [0, 4, 0, 4, 2, 6];

// A block, or piece 9 of 0, which no row has, where the bounds are none.
fn block(bounds: [u32; 6]) -> Request {
    match Extent::new(bounds) {
        Some(extent) => Request::Block(extent),
        None => piece(9, 0, 0),
    }
}

fn piece(p: u32, n: u32, ghosts: u32) -> Request {
    Request::Piece { p, n, ghosts }
}

// A node's parameters by its kind: a sample and a smooth have some of their own.
fn settings_of(kind: Kind) -> Settings {
    match kind {
        Kind::Sample => Settings::Sample { x: 2, y: 3, z: 1 },
        Kind::Smooth => Settings::Smooth { radius: 2 },
        _ => Settings::new(kind),
    }
}

#[test]
fn images_are_asked_for_blocks(rt: HostRuntime) {
    let whole = Extent::new(WHOLE);
    for (kind, asks, want) in [
        (Kind::Sample, [1, 2, 0, 1, 3, 4], [2, 4, 0, 3, 3, 4]),
        // A mean asks for what lies round it, as far as the whole reaches.
        (Kind::Smooth, [3, 4, 0, 1, 2, 3], [1, 6, 0, 3, 2, 5]),
        (Kind::Crop, [3, 4, 0, 1, 2, 3], [3, 4, 0, 1, 2, 3]),
    ] {
        assert_eq!(rt;
            asked(&settings_of(kind), &whole, &block(asks)),
            Some(block(want)),
            "{kind:?} {asks:?}"
        );
    }
}

#[test]
fn contours_of_images_are_asked_for_planes(rt: HostRuntime) {
    let whole = Extent::new(WHOLE);
    let contour = Settings::new(Kind::Contour);
    for (p, n, ghosts, want) in [
        // Layers 2 and 3 touch planes 4 to 6.
        (1, 3, 0, [0, 9, 0, 4, 4, 6]),
        (1, 3, 1, [0, 9, 0, 4, 3, 7]),
        (1, 3, 9, WHOLE),
        // Piece 0 of 7 has none of 6 layers.
        (0, 7, 2, [0, 9, 0, 4, 2, 2]),
    ] {
        assert_eq!(rt;
            asked(&contour, &whole, &piece(p, n, ghosts)),
            Some(block(want)),
            "{p} {n} {ghosts}"
        );
    }
}

#[test]
fn what_is_not_there_is_not_asked_for(rt: HostRuntime) {
    let whole = Extent::new(WHOLE);
    for (kind, request) in [
        (Kind::Sample, block([1, 5, 0, 1, 3, 4])),
        (Kind::Smooth, block([3, 10, 0, 1, 2, 3])),
        (Kind::Contour, piece(3, 3, 0)),
        (Kind::Contour, block(WHOLE)),
    ] {
        assert_eq!(rt;
            asked(&settings_of(kind), &whole, &request),
            None,
            "{kind:?} {request:?}"
        );
    }
}

#[test]
fn meshes_are_asked_for_pieces(rt: HostRuntime) {
    for (kind, request, want) in [
        (Kind::Select, piece(1, 3, 2), Some(piece(1, 3, 2))),
        (Kind::Append, piece(1, 3, 2), Some(piece(1, 3, 2))),
        (Kind::Contour, piece(1, 3, 2), Some(piece(1, 3, 2))),
        (Kind::Boundary, piece(1, 3, 2), Some(piece(1, 3, 3))),
        (Kind::Merge, piece(0, 1, 0), Some(piece(0, 1, 0))),
        (Kind::Boundary, piece(1, 3, u32::MAX), None),
        (Kind::Select, piece(3, 3, 0), None),
    ] {
        assert_eq!(rt;
            asked(&Settings::new(kind), &None, &request),
            want,
            "{kind:?} {request:?}"
        );
    }
}

#[test]
fn files_and_merges_make_all(rt: HostRuntime) {
    let whole = Extent::new(WHOLE);
    let file = Settings::File {
        array: Pick::First,
        unit: 0,
    };
    let one = block([0, 1, 0, 1, 2, 2]);
    assert_eq!(rt; widened(&file, &whole, &one), block(WHOLE));
    assert_eq!(rt; widened(&file, &None, &piece(1, 3, 2)), piece(0, 1, 0));
    let merge = Settings::new(Kind::Merge);
    assert_eq!(rt; widened(&merge, &None, &piece(1, 3, 2)), piece(0, 1, 0));
    // A file asks nobody, so it can always ask.
    assert_eq!(rt; asked(&file, &None, &block(WHOLE)), Some(piece(0, 1, 0)));
    let smooth = Settings::new(Kind::Smooth);
    assert_eq!(rt; widened(&smooth, &whole, &one), one);
}

#[test]
fn what_is_kept_serves(rt: HostRuntime) {
    for (kept, wanted, want) in [
        (block(KEPT), block([1, 2, 0, 0, 3, 3]), true),
        (block(KEPT), block(KEPT), true),
        (block(KEPT), block([0, 4, 0, 4, 1, 6]), false),
        (block(KEPT), block([0, 4, 0, 5, 2, 6]), false),
        (block(KEPT), piece(0, 1, 0), false),
        (piece(1, 3, 1), piece(1, 3, 0), true),
        (piece(1, 3, 1), piece(1, 3, 2), false),
        (piece(1, 3, 1), piece(2, 3, 0), false),
        (piece(0, 1, 0), piece(0, 1, 5), true),
        // A whole mesh covers its pieces, and serves none.
        (piece(0, 1, 0), piece(1, 3, 0), false),
    ] {
        assert_eq!(rt; serves(&kept, &wanted), want, "{kept:?} {wanted:?}");
    }
}

#[test]
fn slabs_without_planes_are_left_out(rt: HostRuntime) -> Result<(), Fail> {
    let flat = Extent::new([0, 1, 0, 1, 5, 6]);
    let slabs = requests_of(rt.alloc(), &flat, 3)?;
    // 2 planes in 3 shares: none, the first, the second.
    assert_eq!(rt; slabs.len(), 2);
    assert_eq!(rt; slabs[0], block([0, 1, 0, 1, 5, 5]));
    assert_eq!(rt; slabs[1], block([0, 1, 0, 1, 6, 6]));
    let pieces = requests_of(rt.alloc(), &None, 2)?;
    assert_eq!(rt; pieces.len(), 2);
    assert_eq!(rt; pieces[0], piece(0, 2, 0));
    assert_eq!(rt; pieces[1], piece(1, 2, 0));
    Ok(())
}

#[test]
fn many_pieces_are_asked_for(rt: HostRuntime) -> Result<(), Fail> {
    // Far more slabs than planes: each is looked at, and two have a plane.
    let flat = Extent::new([0, 1, 0, 1, 5, 6]);
    let slabs = requests_of(rt.alloc(), &flat, 20_000_000)?;
    assert_eq!(rt; slabs.len(), 2);
    let pieces = requests_of(rt.alloc(), &None, 1_000_000)?;
    assert_eq!(rt; pieces.len(), 1_000_000);
    assert_eq!(rt; pieces[999_999], piece(999_999, 1_000_000, 0));
    Ok(())
}
