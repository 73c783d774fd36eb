//! A part of two vertices, by hand.

use crate::sheets::{sheet_by, wide_points};
use std::alloc::Global;
use std::test::Fail;
use viz_extent::Extent;
use viz_parts::{Part, PartSheet, Request, covers};
use viz_sheet::{Leaves, Ranks, Sheet};

// Two vertices, at 0 and at 1.
fn vertices(alloc: Global) -> Result<Sheet, Fail> {
    let leaves = Leaves::of_points(alloc, 2)?;
    let places = wide_points(alloc, 2)?;
    let ranks = Ranks::Vertices(vec![in alloc; [0], [1]]?);
    sheet_by(alloc, leaves, places, ranks)
}

// Whether a part's cells have these levels.
fn has_levels(part: &PartSheet, want: &[u32]) -> bool {
    if part.sheet().cell_count() != want.len() {
        return false;
    }
    for (cell, level) in want.iter().enumerate() {
        if part.level(cell) != *level {
            return false;
        }
    }
    true
}

#[test]
fn own_cells_have_level_0(rt: HostRuntime) -> Result<(), Fail> {
    let part = PartSheet::own(vertices(rt.alloc())?);
    assert!(rt; has_levels(&part, &[0, 0]));
    Ok(())
}

// The two vertices with levels 0 and 3.
fn leveled(alloc: Global) -> Result<PartSheet, Fail> {
    let sheet = vertices(alloc)?;
    if sheet.cell_count() != 2 {
        return Err("two cells")?;
    }
    Ok(PartSheet::new(sheet, vec![in alloc; 0, 3]?))
}

#[test]
fn each_cell_has_its_level(rt: HostRuntime) -> Result<(), Fail> {
    let part = leveled(rt.alloc())?;
    assert!(rt; has_levels(&part, &[0, 3]));
    let parts = Part::Mesh(vec![in rt.alloc(); part]?);
    assert!(rt; matches!(parts, Part::Mesh(_)));
    Ok(())
}

// Whether piece 1 of 3 with no ghost levels is the request of a row.
fn is_asked((p, n, ghosts, want): &(u32, u32, u32, bool)) -> bool {
    let asked = Request::Piece {
        p: 1,
        n: 3,
        ghosts: 0,
    };
    let other = Request::Piece {
        p: *p,
        n: *n,
        ghosts: *ghosts,
    };
    (asked == other) == *want
}

#[test]
fn requests_differ_in_each_number(rt: HostRuntime) {
    for row in &[
        (1, 3, 0, true),
        (0, 3, 0, false),
        (1, 2, 0, false),
        (1, 3, 1, false),
    ] {
        assert!(rt; is_asked(row), "{row:?}");
    }
}

// Whether a block is equal to itself alone, and not to a piece.
fn differs(block: Request) -> bool {
    let piece = Request::Piece {
        p: 1,
        n: 3,
        ghosts: 0,
    };
    block == block && piece != block
}

#[test]
fn a_block_is_no_piece(rt: HostRuntime) -> Result<(), Fail> {
    let whole = Extent::new([0, 1, 0, 1, 0, 1]).ok_or("an extent")?;
    assert!(rt; differs(Request::Block(whole)));
    Ok(())
}

// Piece `p` of `n` with ghost levels, and whether it covers another.
fn piece_covers(kept: (u32, u32, u32), wanted: (u32, u32, u32)) -> bool {
    let (p, n, ghosts) = kept;
    let (q, m, fewer) = wanted;
    covers(
        &Request::Piece { p, n, ghosts },
        &Request::Piece {
            p: q,
            n: m,
            ghosts: fewer,
        },
    )
}

// Whether a piece covers another as a row says.
fn is_covered((kept, wanted, want): &((u32, u32, u32), (u32, u32, u32), bool)) -> bool {
    piece_covers(*kept, *wanted) == *want
}

#[test]
fn a_piece_covers_itself_with_fewer_ghosts(rt: HostRuntime) {
    for row in &[
        ((1, 3, 1), (1, 3, 1), true),
        ((1, 3, 1), (1, 3, 0), true),
        ((1, 3, 1), (1, 3, 2), false),
        // Another piece, and the same number of another count.
        ((1, 3, 1), (2, 3, 0), false),
        ((1, 3, 1), (1, 2, 0), false),
        ((0, 2, 1), (0, 1, 0), false),
        // The only piece covers all, whatever its ghosts.
        ((0, 1, 0), (0, 1, 5), true),
        ((0, 1, 0), (6, 7, 3), true),
        // Pieces of more than one that begin the mesh don't.
        ((0, 2, 9), (1, 2, 0), false),
    ] {
        assert!(rt; is_covered(row), "{row:?}");
    }
}

// Whether one block covers another, where both are extents.
fn block_covers(kept: [u32; 6], wanted: [u32; 6]) -> Option<bool> {
    let kept = Extent::new(kept)?;
    let wanted = Extent::new(wanted)?;
    Some(covers(&Request::Block(kept), &Request::Block(wanted)))
}

// Whether one block covers that of a row as it says.
fn is_block_covered((bounds, want): &([u32; 6], bool)) -> bool {
    block_covers([0, 4, 0, 4, 2, 6], *bounds) == Some(*want)
}

#[test]
fn a_block_covers_each_block_in_it(rt: HostRuntime) {
    for row in &[
        ([0, 4, 0, 4, 2, 6], true),
        ([1, 2, 0, 0, 3, 3], true),
        ([0, 4, 0, 4, 1, 6], false),
        ([0, 5, 0, 4, 2, 6], false),
    ] {
        assert!(rt; is_block_covered(row), "{row:?}");
    }
}

// Whether a block or the whole of a mesh covers the other.
fn either_covers(block: Extent) -> bool {
    let whole = Request::Piece {
        p: 0,
        n: 1,
        ghosts: 0,
    };
    covers(&whole, &Request::Block(block)) || covers(&Request::Block(block), &whole)
}

#[test]
fn no_piece_covers_a_block(rt: HostRuntime) -> Result<(), Fail> {
    let kept = Extent::new([0, 4, 0, 4, 2, 6]).ok_or("an extent")?;
    assert!(rt; !either_covers(kept));
    Ok(())
}
