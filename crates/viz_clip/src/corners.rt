//! The corners of a tetrahedron, the inside ones first.
ghost use Rattle.std.specs.Prelude.{◌≡◌, ◌<◌, ◌≤◌, ℕ, [], ◌∷◌, All, drop, length, map, not, take};
ghost use Rattle.std.specs.Ordering.{nat_cmp};
ghost use Rattle.viz_sheet.specs.Kept.{kept};
ghost use Rattle.viz_sheet.specs.Ranked.{IsCell};
ghost use Rattle.viz_sheet.specs.Sheet.{AreApart};
ghost use Rattle.viz_clip_meaning.specs.Order.{ascending};
ghost use Rattle.viz_clip.specs.Steps.Corners.{IsParted, corner_list, four_flags, four_ranks};
ghost use Rattle.viz_clip.specs.Steps.Corners.{slid};

/// The ranks of four corners, so many of them inside: these come first, and the inside ones ascend,
/// as do the outside ones.
#[derive(Clone, Copy)]
pub(crate) struct Corners {
    pub inside: u8,
    pub a: u32,
    pub b: u32,
    pub c: u32,
    pub d: u32,
}

/// The corners of a cell, by which points are inside.
pub(crate) fn corners_of(inside: &[bool], cell: &[u32]) -> Corners
    requires cell { IsCell (length inside.now) cell.now }
    requires size { length cell.now ≡ 4 }
    ensures parted { IsParted inside.now cell.now result }
{
    let ranks = ascending(cell);
    let [a, b, c, d] = ranks;
    let flags = [
        inside[a as usize],
        inside[b as usize],
        inside[c as usize],
        inside[d as usize],
    ];
    parted(flags, ranks)
}

/// Four ranks with the marked ones first.
#[rattlefmt::skip]
fn parted(flags: [bool; 4], ranks: [u32; 4]) -> Corners
    ensures inside { take result.inside (corner_list result)
        ≡ kept (four_flags flags) (four_ranks ranks) }
    ensures outside { drop result.inside (corner_list result)
        ≡ kept (map not (four_flags flags)) (four_ranks ranks) }
    ensures most { result.inside ≤ 4 }
{
    let [p, q, r, s] = flags;
    let [a, b, c, d] = ranks;
    match (p, q, r, s) {
        (false, false, false, false) => Corners { inside: 0, a, b, c, d },
        (true, false, false, false) => Corners { inside: 1, a, b, c, d },
        (false, true, false, false) => Corners { inside: 1, a: b, b: a, c, d },
        (false, false, true, false) => Corners { inside: 1, a: c, b: a, c: b, d },
        (false, false, false, true) => Corners { inside: 1, a: d, b: a, c: b, d: c },
        (true, true, false, false) => Corners { inside: 2, a, b, c, d },
        (true, false, true, false) => Corners { inside: 2, a, b: c, c: b, d },
        (true, false, false, true) => Corners { inside: 2, a, b: d, c: b, d: c },
        (false, true, true, false) => Corners { inside: 2, a: b, b: c, c: a, d },
        (false, true, false, true) => Corners { inside: 2, a: b, b: d, c: a, d: c },
        (false, false, true, true) => Corners { inside: 2, a: c, b: d, c: a, d: b },
        (true, true, true, false) => Corners { inside: 3, a, b, c, d },
        (true, true, false, true) => Corners { inside: 3, a, b, c: d, d: c },
        (true, false, true, true) => Corners { inside: 3, a, b: c, c: d, d: b },
        (false, true, true, true) => Corners { inside: 3, a: b, b: c, c: d, d: a },
        (true, true, true, true) => Corners { inside: 4, a, b, c, d },
    }
}

/// The ranks of a cell in ascending order.
fn ascending(cell: &[u32]) -> [u32; 4]
    requires size { length cell.now ≡ 4 }
    requires apart { AreApart cell.now }
    ensures value { result ≡ ascending nat_cmp cell.now }
    ensures below { (n : ℕ) → All (λ r. r < n) cell.now → All (λ r. r < n) result }
{
    slid(cell[0], cell[1], cell[2], cell[3])
}

/// Four numbers, each in turn slid among those behind it.
fn slid(a: u32, b: u32, c: u32, d: u32) -> [u32; 4]
    ensures { result ≡ slid a (slid b (slid c (d ∷ []))) }
{
    let (c, d) = (c.min(d), c.max(d));
    let (b, rest) = (b.min(c), b.max(c));
    let (c, d) = (rest.min(d), rest.max(d));
    let (a, rest) = (a.min(b), a.max(b));
    let (b, rest) = (rest.min(c), rest.max(c));
    [a, b, rest.min(d), rest.max(d)]
}
