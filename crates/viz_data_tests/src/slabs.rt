//! Slabs and layers counted by hand, and all of them in turn.
use viz_extent::Extent;

// The first and the last plane of a slab of so many planes, which begin with plane 5.
fn slab(count: u32, p: u32, n: u32) -> Option<(u32, u32)> {
    let whole = Extent::new([2, 4, 0, 1, 5, 4_u32.saturating_add(count)])?;
    if p >= n {
        return None;
    }
    let [_, _, _, _, first, last] = whole.slab(p, n)?.bounds();
    Some((first, last))
}

// The first and the last plane of a piece's layers.
fn layers(count: u32, p: u32, n: u32, ghosts: u32) -> Option<(u32, u32)> {
    let whole = Extent::new([2, 4, 0, 1, 5, 4_u32.saturating_add(count)])?;
    if p >= n {
        return None;
    }
    let [_, _, _, _, first, last] = whole.layers(p, n, ghosts)?.bounds();
    Some((first, last))
}

// Whether a slab has the first and the last plane of a row.
fn is_slab((count, p, n, want): &(u32, u32, u32, Option<(u32, u32)>)) -> bool {
    slab(*count, *p, *n) == *want
}

#[test]
fn slabs_share_out_planes(rt: HostRuntime) {
    for row in &[
        // Seven planes in three slabs: 2, 2 and 3.
        (7, 0, 3, Some((5, 6))),
        (7, 1, 3, Some((7, 8))),
        (7, 2, 3, Some((9, 11))),
        // All in one.
        (7, 0, 1, Some((5, 11))),
        // Two planes in three slabs: none, and one each.
        (2, 0, 3, None),
        (2, 1, 3, Some((5, 5))),
        (2, 2, 3, Some((6, 6))),
        // One plane, which the last slab has.
        (1, 7, 9, None),
        (1, 8, 9, Some((5, 5))),
        (1, u32::MAX - 1, u32::MAX, Some((5, 5))),
    ] {
        assert!(rt; is_slab(row), "{row:?}");
    }
}

// Whether the layers of a piece have the first and the last plane of a row.
fn are_layers((count, p, n, ghosts, want): &(u32, u32, u32, u32, Option<(u32, u32)>)) -> bool {
    layers(*count, *p, *n, *ghosts) == *want
}

#[test]
fn layers_have_ghosts_at_both_sides(rt: HostRuntime) {
    for row in &[
        // Six layers in four pieces: 1, 2, 1 and 2.
        (7, 0, 4, 0, Some((5, 6))),
        (7, 1, 4, 0, Some((6, 8))),
        (7, 2, 4, 0, Some((8, 9))),
        (7, 3, 4, 0, Some((9, 11))),
        // One more at each side, where the whole has it.
        (7, 0, 4, 1, Some((5, 7))),
        (7, 1, 4, 1, Some((5, 9))),
        (7, 2, 4, 1, Some((7, 10))),
        (7, 3, 4, 1, Some((8, 11))),
        (7, 2, 4, u32::MAX, Some((5, 11))),
        // Two layers in three pieces: the first has none, whatever its ghosts.
        (3, 0, 3, 0, None),
        (3, 0, 3, 2, None),
        (3, 1, 3, 0, Some((5, 6))),
        (3, 2, 3, 1, Some((5, 7))),
        // One plane has no layer.
        (1, 0, 1, 5, None),
    ] {
        assert!(rt; are_layers(row), "{row:?}");
    }
}

// Where the slabs, or the own layers, of all shares in turn end, each of which begins where the
// one before ended.
fn ends(count: u32, n: u32, own_layers: bool) -> Option<u32> {
    let mut next = 5;
    for p in 0..n {
        let found = if own_layers {
            layers(count, p, n, 0)
        } else {
            slab(count, p, n)
        };
        if let Some((first, last)) = found {
            if first != next {
                return None;
            }
            next = if own_layers {
                last
            } else {
                last.saturating_add(1)
            };
        }
    }
    Some(next)
}

// Whether both in turn are the whole.
fn are_whole(count: u32, n: u32) -> bool {
    ends(count, n, false) == Some(count.saturating_add(5))
        && ends(count, n, true) == Some(count.saturating_add(4))
}

#[test]
fn parts_in_turn_are_the_whole(rt: HostRuntime) {
    for count in 1..8 {
        for n in 1..10 {
            assert!(rt; are_whole(count, n), "{count} {n}");
        }
    }
}
