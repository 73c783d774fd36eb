//! Geometries that were written by hand, and what is read of them.

use std::alloc::Global;
use std::process::Abort;
use std::test::Fail;
use viz_column::Kind8;
use viz_counted_cells::{CellArrays, CellSection};
use viz_lex::Lexer;
use viz_mesh_read::{GridFile, PolyFile, PolyPieces, grid, polydata, split};

/// A grid of a tetrahedron, a triangle and a line, in words.
const GRID_WORDS: &[u8] = b"FIELD f 1
a 1 1 int 5
POINTS 4 int
0 0 0 1 0 0 0 1 0 0 0 -7
METADATA
x

FIELD g 0
CELLS 3 12
4 0 1 2 3
3 0 1 2
2 3 1
FIELD h 0
cell_types 3
10 5 3 behind";

/// The same in BINARY.
const GRID_BLOCKS: &[u8] = b"POINTS 4 int
\x00\x00\x00\x00\x00\x00\x00\x00\x00\x00\x00\x00\x00\x00\x00\x01\x00\x00\x00\x00\x00\x00\
\x00\x00\x00\x00\x00\x00\x00\x00\x00\x01\x00\x00\x00\x00\x00\x00\x00\x00\x00\x00\x00\x00\
\xff\xff\xff\xf9
METADATA
x

CELLS 3 12 \t\r
\x00\x00\x00\x04\x00\x00\x00\x00\x00\x00\x00\x01\x00\x00\x00\x02\x00\x00\x00\x03\x00\x00\
\x00\x03\x00\x00\x00\x00\x00\x00\x00\x01\x00\x00\x00\x02\x00\x00\x00\x02\x00\x00\x00\x03\
\x00\x00\x00\x01
FIELD h 0
CELL_TYPES 3
\x00\x00\x00
\x00\x00\x00\x05\x00\x00\x00\x03 behind";

/// Two tetrahedra in BINARY, whose numbers stand in an array of that size.
const TWO_TETRAHEDRA: &[u8] = b"POINTS 4 int
\x00\x00\x00\x00\x00\x00\x00\x00\x00\x00\x00\x00\x00\x00\x00\x00\x00\x00\x00\x00\
\x00\x00\x00\x00\x00\x00\x00\x00\x00\x00\x00\x00\x00\x00\x00\x00\x00\x00\x00\x00\
\x00\x00\x00\x00\x00\x00\x00\x00
CELLS 2 10
\x00\x00\x00\x04\x00\x00\x00\x00\x00\x00\x00\x01\x00\x00\x00\x02\x00\x00\x00\x03\
\x00\x00\x00\x04\x00\x00\x00\x01\x00\x00\x00\x00\x00\x00\x00\x02\x00\x00\x00\x03
CELL_TYPES 2
\x00\x00\x00
\x00\x00\x00
 behind";

/// A grid of a tetrahedron, a triangle and a line as version 5.1 has it.
const LATER_GRID: &[u8] = b"POINTS 4 int
0 0 0 1 0 0 0 1 0 0 0 -7
METADATA
x

CELLS 4 9
OFFSETS vtktypeint64
0 4 7 9
CONNECTIVITY vtktypeint64
0 1 2 3
0 1 2
3 1
CELL_TYPES 3
10 5 3 behind";

/// Polydata of version 5.1 of all four kinds, of which one has no cell.
const LATER_SECTIONS: &[u8] = b"POINTS 3 int
0 0 0 1 0 0 0 1 0
POLYGONS 2 3
OFFSETS vtktypeint64
0 3
CONNECTIVITY vtktypeint64
0 1 2
VERTICES 3 3
OFFSETS int
0 1 3
CONNECTIVITY unsigned_char
0 1 2
LINES 0 0
triangle_strips 2 4
offsets vtktypeint64 0 4
connectivity vtktypeint64 0 1 2 0
";

/// Polydata of all four kinds, in another order.
const ALL_SECTIONS: &[u8] = b"POINTS 3 int
0 0 0 1 0 0 0 1 0
POLYGONS 1 4
3 0 1 2
FIELD f 0
VERTICES 2 5
1 0 2 1 2
LINES 1 3 2 0 1
triangle_strips 1 5 4 0 1 2 0
FIELD f 0
";

/// The numbers of a section, where there are as many cells.
fn has_numbers(section: &CellSection, count: u64, numbers: &[u32]) -> bool {
    match section.numbers.arrays() {
        CellArrays::Mixed(list) => section.count == count && list.as_slice() == numbers,
        CellArrays::Triangles(_) | CellArrays::Tetrahedra(_) => false,
    }
}

/// Whether a section has two tetrahedra, of which the second has its first two corners turned.
fn has_two_tetrahedra(section: &CellSection) -> bool {
    match section.numbers.arrays() {
        CellArrays::Tetrahedra(cells) => match cells.as_slice() {
            [a, b] => section.count == 2 && *a == [0, 1, 2, 3] && *b == [1, 0, 2, 3],
            _ => false,
        },
        CellArrays::Mixed(_) | CellArrays::Triangles(_) => false,
    }
}

/// Whether four points were read, of which the last coordinate is -7.
fn is_read(grid: &GridFile) -> bool {
    let coordinates = &grid.points.coordinates;
    grid.points.count == 4 && coordinates.kind() == Kind8::I32 && last_is(coordinates, 11, -7)
}

fn last_is(column: &viz_column::Column, i: u64, n: i128) -> bool {
    i < column.len() && column.get(i) == n
}

/// A grid of a tetrahedron, a triangle and a line, and how many bytes of it were read.
fn tells(alloc: Global, binary: bool, later: bool, text: &[u8]) -> Option<u64> {
    let mut lexer = Lexer::new(text);
    match &grid(alloc, &mut lexer, binary, later) {
        Ok(found) => {
            if is_read(found)
                && has_numbers(&found.cells, 3, &[4, 0, 1, 2, 3, 3, 0, 1, 2, 2, 3, 1])
            {
                return Some(lexer.place());
            }
            None
        }
        Err(_) => None,
    }
}

/// Two tetrahedra, and how many bytes were read.
fn tells_two(alloc: Global, text: &[u8]) -> Option<u64> {
    let mut lexer = Lexer::new(text);
    match &grid(alloc, &mut lexer, true, false) {
        Ok(found) => {
            if has_two_tetrahedra(&found.cells) {
                return Some(lexer.place());
            }
            None
        }
        Err(_) => None,
    }
}

#[test]
fn cells_of_one_size_in_a_block(rt: HostRuntime) -> Result<(), Fail> {
    assert_eq!(rt; tells_two(rt.alloc(), TWO_TETRAHEDRA), Some(135));
    Ok(())
}

#[test]
fn a_grid_in_both_forms(rt: HostRuntime) -> Result<(), Fail> {
    for (binary, later, text, read) in [
        (false, false, GRID_WORDS, 146),
        (true, false, GRID_BLOCKS, 172),
        (false, true, LATER_GRID, 152),
    ] {
        assert_eq!(rt;
            tells(rt.alloc(), binary, later, text),
            Some(read),
            "{text:?}"
        );
    }
    Ok(())
}

/// The four sections of polydata, and how many bytes were read.
fn tells_poly(
    alloc: Global,
    later: bool,
    text: &[u8],
    sections: [(u64, &[u32]); 4],
) -> Option<u64> {
    let mut lexer = Lexer::new(text);
    match &polydata(alloc, &mut lexer, false, later) {
        Ok(found) => {
            if has_sections(found, sections) {
                return Some(lexer.place());
            }
            None
        }
        Err(_) => None,
    }
}

fn has_sections(found: &PolyFile, sections: [(u64, &[u32]); 4]) -> bool {
    let [vertices, lines, polygons, strips] = sections;
    has_numbers(&found.cells.vertices, vertices.0, vertices.1)
        && has_numbers(&found.cells.lines, lines.0, lines.1)
        && has_numbers(&found.cells.polygons, polygons.0, polygons.1)
        && has_numbers(&found.cells.strips, strips.0, strips.1)
}

#[test]
fn polydata_ends_where_no_section_is_due(rt: HostRuntime) -> Result<(), Fail> {
    let none: (u64, &[u32]) = (0, &[]);
    let triangle: (u64, &[u32]) = (1, &[3, 0, 1, 2]);
    let vertices: (u64, &[u32]) = (2, &[1, 0, 2, 1, 2]);
    let line: (u64, &[u32]) = (1, &[2, 0, 1]);
    let strip: (u64, &[u32]) = (1, &[4, 0, 1, 2, 0]);
    for (text, sections, read) in [
        // a FIELD behind all four isn't passed over
        (ALL_SECTIONS, [vertices, line, triangle, strip], 130),
        // a FIELD behind one is, and a section that was read isn't read again
        (
            b"POINTS 3 int\n0 0 0 1 0 0 0 1 0\nPOLYGONS 1 4\n3 0 1 2\nFIELD f 0\nPOLYGONS 9\n",
            [none, none, triangle, none],
            61,
        ),
        (
            b"POINTS 3 int\n0 0 0 1 0 0 0 1 0\nPOINT_DATA 3\n",
            [none, none, none, none],
            30,
        ),
        (
            b"POINTS 3 int\n0 0 0 1 0 0 0 1 0\n",
            [none, none, none, none],
            30,
        ),
    ] {
        assert_eq!(rt;
            tells_poly(rt.alloc(), false, text, sections),
            Some(read),
            "{text:?}"
        );
    }
    assert_eq!(rt;
        tells_poly(
            rt.alloc(),
            true,
            LATER_SECTIONS,
            [vertices, none, triangle, strip]
        ),
        Some(253)
    );
    Ok(())
}

/// Cells of each kind, among them some that repeat an index or have too few points.
const SPLIT: &[u8] = b"POINTS 5 char
0 0 0 0 0 0 0 0 0 0 0 0 0 0 0
VERTICES 2 5
1 4 2 0 0
LINES 3 9
3 0 1 1 1 2 2 3 4
POLYGONS 3 12
4 0 1 2 3 3 1 1 2 2 0 1
TRIANGLE_STRIPS 2 13
5 0 1 2 3 4
6 0 1 2 2 3 4
";

fn has_pieces(
    pieces: &PolyPieces,
    vertices: &[[u32; 1]],
    lines: &[[u32; 2]],
    triangles: &[[u32; 3]],
) -> bool {
    pieces.vertices.as_slice() == vertices
        && pieces.lines.as_slice() == lines
        && pieces.triangles.as_slice() == triangles
}

/// The pieces of polydata that is well formed.
fn pieces_told(alloc: Global, text: &[u8]) -> Option<PolyPieces> {
    let mut lexer = Lexer::new(text);
    match &polydata(alloc, &mut lexer, false, false) {
        Ok(found) => split(alloc, &found.cells).ok(),
        Err(_) => None,
    }
}

#[test]
fn cells_are_split_into_pieces(rt: HostRuntime) -> Result<(), Fail> {
    let pieces = pieces_told(rt.alloc(), SPLIT).ok_or("no pieces")?;
    // a polygon of four, one that repeats an index, a strip of five, and one that is stitched
    let triangles = [
        [0, 1, 2],
        [0, 2, 3],
        [0, 1, 2],
        [2, 1, 3],
        [2, 3, 4],
        [0, 1, 2],
        [3, 2, 4],
    ];
    assert!(rt; has_pieces(&pieces, &[[4], [0], [0]], &[[0, 1], [3, 4]], &triangles));
    Ok(())
}
