//! Networks that chance made, with what their plans come to by a plain recursive program,
//! `.ci/plan.py`.

use viz_network::Kind;

/// A block's bounds; or a piece, of how many, with how many ghost levels.
#[derive(Clone, Copy, Debug)]
pub enum Asked {
    Block([u32; 6]),
    Piece(u32, u32, u32),
}

/// Nodes with what feeds their first two ports; the extents of images; kept parts, with how much
/// older their stamps are; the sink; and the tasks, levels and used entries of its plan.
#[derive(Clone, Copy)]
pub struct Row<'a> {
    pub lines: &'a [(&'a str, Kind, &'a str, &'a str)],
    pub images: &'a [(&'a str, [u32; 6])],
    pub kept: &'a [(&'a str, u32, Asked)],
    pub sink: &'a str,
    pub pieces: u32,
    pub want: (usize, usize, usize),
}

#[rattlefmt::skip]
pub const ROWS: [Row; 10] = [
    Row {
        lines: &[
            ("a", Kind::File, "", ""),
            ("b", Kind::Crop, "a", ""),
            ("c", Kind::Threshold, "a", ""),
            ("d", Kind::Arith, "a", "c"),
            ("e", Kind::Arith, "d", "a"),
            ("f", Kind::Tets, "a", ""),
            ("g", Kind::Arith, "c", "e"),
        ],
        images: &[
            ("a", [0, 3, 0, 3, 0, 3]),
            ("b", [1, 2, 0, 3, 0, 2]),
            ("c", [0, 3, 0, 3, 0, 3]),
            ("d", [0, 3, 0, 3, 0, 3]),
            ("e", [0, 3, 0, 3, 0, 3]),
            ("g", [0, 3, 0, 3, 0, 3]),
        ],
        kept: &[
            ("d", 0, Asked::Block([0, 3, 0, 3, 0, 1])),
            ("g", 1, Asked::Block([0, 3, 0, 3, 0, 1])),
        ],
        sink: "g",
        pieces: 5,
        want: (15, 5, 1),
    },
    Row {
        lines: &[
            ("a", Kind::File, "", ""),
            ("b", Kind::Smooth, "a", ""),
            ("c", Kind::Contour, "a", ""),
            ("d", Kind::Append, "c", "c"),
            ("e", Kind::Append, "c", "c"),
            ("f", Kind::Writer, "e", ""),
            ("g", Kind::Boundary, "f", ""),
        ],
        images: &[
            ("a", [0, 3, 0, 3, 0, 3]),
            ("b", [0, 3, 0, 3, 0, 3]),
        ],
        kept: &[
            ("c", 0, Asked::Piece(0, 5, 0)),
        ],
        sink: "g",
        pieces: 5,
        want: (16, 4, 0),
    },
    Row {
        lines: &[
            ("a", Kind::File, "", ""),
            ("b", Kind::Smooth, "a", ""),
            ("c", Kind::Tets, "a", ""),
            ("d", Kind::Append, "c", "c"),
            ("e", Kind::Boundary, "c", ""),
            ("f", Kind::Crop, "b", ""),
            ("g", Kind::Append, "c", "d"),
        ],
        images: &[
            ("a", [0, 3, 0, 3, 0, 3]),
            ("b", [0, 3, 0, 3, 0, 3]),
            ("f", [1, 2, 0, 3, 0, 2]),
        ],
        kept: &[
            ("b", 0, Asked::Block([0, 3, 0, 3, 0, 1])),
            ("c", 0, Asked::Piece(0, 5, 1)),
            ("e", 0, Asked::Piece(0, 5, 0)),
        ],
        sink: "g",
        pieces: 5,
        want: (15, 4, 1),
    },
    Row {
        lines: &[
            ("a", Kind::File, "", ""),
            ("b", Kind::Smooth, "a", ""),
            ("c", Kind::Writer, "b", ""),
            ("d", Kind::Arith, "a", "a"),
            ("e", Kind::Contour, "d", ""),
            ("f", Kind::Append, "e", "e"),
            ("g", Kind::Threshold, "c", ""),
        ],
        images: &[
            ("a", [0, 3, 0, 3, 0, 3]),
            ("b", [0, 3, 0, 3, 0, 3]),
            ("c", [0, 3, 0, 3, 0, 3]),
            ("d", [0, 3, 0, 3, 0, 3]),
            ("g", [0, 3, 0, 3, 0, 3]),
        ],
        kept: &[
            ("a", 0, Asked::Block([0, 3, 0, 3, 0, 0])),
            ("b", 0, Asked::Block([0, 3, 0, 3, 0, 0])),
            ("f", 0, Asked::Piece(0, 2, 1)),
        ],
        sink: "f",
        pieces: 2,
        want: (4, 4, 1),
    },
    Row {
        lines: &[
            ("a", Kind::File, "", ""),
            ("b", Kind::Smooth, "a", ""),
            ("c", Kind::Writer, "b", ""),
            ("d", Kind::Writer, "b", ""),
            ("e", Kind::Contour, "b", ""),
            ("f", Kind::Writer, "e", ""),
            ("g", Kind::Writer, "e", ""),
        ],
        images: &[
            ("a", [0, 3, 0, 3, 0, 3]),
            ("b", [0, 3, 0, 3, 0, 3]),
            ("c", [0, 3, 0, 3, 0, 3]),
            ("d", [0, 3, 0, 3, 0, 3]),
        ],
        kept: &[
            ("b", 1, Asked::Block([0, 3, 0, 3, 0, 0])),
            ("e", 0, Asked::Piece(0, 2, 1)),
        ],
        sink: "f",
        pieces: 2,
        want: (3, 3, 1),
    },
    Row {
        lines: &[
            ("a", Kind::File, "", ""),
            ("b", Kind::Threshold, "a", ""),
            ("c", Kind::Tets, "a", ""),
            ("d", Kind::Append, "c", "c"),
            ("e", Kind::Writer, "d", ""),
            ("f", Kind::Append, "c", "c"),
            ("g", Kind::Writer, "d", ""),
        ],
        images: &[
            ("a", [0, 3, 0, 3, 0, 3]),
            ("b", [0, 3, 0, 3, 0, 3]),
        ],
        kept: &[
            ("b", 0, Asked::Block([0, 3, 0, 3, 0, 1])),
            ("c", 0, Asked::Piece(0, 2, 0)),
        ],
        sink: "f",
        pieces: 2,
        want: (4, 3, 1),
    },
    Row {
        lines: &[
            ("a", Kind::File, "", ""),
            ("b", Kind::Tets, "a", ""),
            ("c", Kind::Select, "b", ""),
            ("d", Kind::Boundary, "c", ""),
            ("e", Kind::Writer, "c", ""),
            ("f", Kind::Boundary, "b", ""),
            ("g", Kind::Boundary, "e", ""),
        ],
        images: &[
            ("a", [0, 3, 0, 3, 0, 3]),
        ],
        kept: &[
            ("b", 0, Asked::Piece(0, 2, 0)),
            ("g", 0, Asked::Piece(0, 2, 1)),
        ],
        sink: "g",
        pieces: 2,
        want: (4, 4, 1),
    },
    Row {
        lines: &[
            ("a", Kind::File, "", ""),
            ("b", Kind::Threshold, "a", ""),
            ("c", Kind::Threshold, "b", ""),
            ("d", Kind::Smooth, "c", ""),
            ("e", Kind::Threshold, "b", ""),
            ("f", Kind::Threshold, "e", ""),
            ("g", Kind::Smooth, "f", ""),
        ],
        images: &[
            ("a", [0, 3, 0, 3, 0, 3]),
            ("b", [0, 3, 0, 3, 0, 3]),
            ("c", [0, 3, 0, 3, 0, 3]),
            ("d", [0, 3, 0, 3, 0, 3]),
            ("e", [0, 3, 0, 3, 0, 3]),
            ("f", [0, 3, 0, 3, 0, 3]),
            ("g", [0, 3, 0, 3, 0, 3]),
        ],
        kept: &[
            ("a", 0, Asked::Block([0, 3, 0, 3, 0, 0])),
            ("c", 1, Asked::Block([0, 3, 0, 3, 0, 0])),
            ("e", 0, Asked::Block([0, 3, 0, 3, 0, 0])),
            ("f", 0, Asked::Block([0, 3, 0, 3, 0, 1])),
            ("g", 1, Asked::Block([0, 3, 0, 3, 0, 1])),
        ],
        sink: "g",
        pieces: 2,
        want: (9, 5, 0),
    },
    Row {
        lines: &[
            ("a", Kind::File, "", ""),
            ("b", Kind::Contour, "a", ""),
            ("c", Kind::Append, "b", "b"),
            ("d", Kind::Merge, "b", ""),
            ("e", Kind::Append, "b", "d"),
            ("f", Kind::Boundary, "b", ""),
            ("g", Kind::Append, "f", "d"),
        ],
        images: &[
            ("a", [0, 3, 0, 3, 0, 3]),
        ],
        kept: &[
            ("d", 0, Asked::Piece(4, 5, 0)),
            ("f", 0, Asked::Piece(0, 1, 0)),
            ("g", 0, Asked::Piece(4, 5, 0)),
        ],
        sink: "g",
        pieces: 5,
        want: (15, 4, 1),
    },
    Row {
        lines: &[
            ("a", Kind::File, "", ""),
            ("b", Kind::Contour, "a", ""),
            ("c", Kind::Select, "b", ""),
            ("d", Kind::Tets, "a", ""),
            ("e", Kind::Writer, "c", ""),
            ("f", Kind::Boundary, "d", ""),
            ("g", Kind::Append, "f", "b"),
        ],
        images: &[
            ("a", [0, 3, 0, 3, 0, 3]),
        ],
        kept: &[
            ("a", 0, Asked::Block([0, 3, 0, 3, 0, 3])),
            ("b", 0, Asked::Piece(0, 2, 1)),
            ("d", 0, Asked::Piece(0, 2, 0)),
        ],
        sink: "g",
        pieces: 2,
        want: (7, 3, 2),
    },
];
