//! Files, and what a node reads them as.

use crate::tests::nodes::{Answer, read, told};
use std::alloc::Global;
use std::test::Fail;
use viz_base::{Bytes, Pick, Shared};
use viz_kinds::Settings;
use viz_lex::{FileFault, FileKind};
use viz_network::Cause;
use viz_parts::Part;

/// The bounds of three points along each side, and a file of the numbers 0, 2, 4 to 52 there.
pub(super) const BOX: [u32; 6] = [0, 2, 0, 2, 0, 2];

pub(super) const BOX_FILE: &[u8] = b"# vtk DataFile Version 3.0\nbox
ASCII\nDATASET STRUCTURED_POINTS
DIMENSIONS 3 3 3\nORIGIN 0 0 0\nSPACING 1 1 1
POINT_DATA 27\nSCALARS s int\nLOOKUP_TABLE default
0 2 4 6 8 10 12 14 16
18 20 22 24 26 28 30 32 34
36 38 40 42 44 46 48 50 52\n";

/// The bounds of four cubes, one above the other, and a file of numbers there: 2^58 + 1 in the
/// lowest plane, and 2^64 - 1 in the highest one.
pub(super) const COLUMN: [u32; 6] = [0, 1, 0, 1, 0, 4];

pub(super) const COLUMN_FILE: &[u8] = b"# vtk DataFile Version 3.0\ncolumn
ASCII\nDATASET STRUCTURED_POINTS
DIMENSIONS 2 2 5\nORIGIN 0 0 0\nSPACING 1 1 1
POINT_DATA 20\nSCALARS s unsigned_long\nLOOKUP_TABLE default
0 0 0 288230376151711745\n0 0 0 0\n0 0 0 0\n0 0 0 0
0 0 0 18446744073709551615\n";

/// Three triangles of five points, each of which has its number as scalar.
const STRIP_FILE: &[u8] = b"# vtk DataFile Version 3.0\nstrip
ASCII\nDATASET POLYDATA
POINTS 5 int 0 0 0 1 0 0 0 1 0 1 1 0 0 2 0
TRIANGLE_STRIPS 1 6 5 0 1 2 3 4
POINT_DATA 5\nSCALARS s int\nLOOKUP_TABLE default
0 1 2 3 4\n";

const FIRST: Settings = Settings::File {
    array: Pick::First,
    unit: 0,
};

// A file of this text.
fn file(alloc: Global, text: &[u8]) -> Result<Shared<Bytes>, Fail> {
    let mut bytes = Vec::new(alloc);
    bytes.extend_from_slice(text)?;
    Ok(Shared::new(alloc, Bytes::new(bytes))?)
}

/// What a file of this text is read as.
pub(super) fn source(alloc: Global, text: &[u8]) -> Result<Shared<Part>, Fail> {
    let part = read(alloc, FIRST, Some(file(alloc, text)?))?;
    Ok(Shared::new(alloc, part)?)
}

#[test]
fn a_file_is_read_whole(rt: HostRuntime) -> Result<(), Fail> {
    for (text, want) in [
        (BOX_FILE, Answer::Image(BOX, [0, 2, 4, 6])),
        (STRIP_FILE, Answer::Mesh(1, 5, [3, 0, 0])),
        (
            b"# vtk DataFile Version 3.0\nt\nTEXT\n",
            Answer::Cause(Cause::BadFile(FileFault {
                kind: FileKind::Form,
                place: 29,
            })),
        ),
    ] {
        let file = file(rt.alloc(), text)?;
        assert_eq!(rt; told(read(rt.alloc(), FIRST, Some(file))), want);
    }
    let none = told(read(rt.alloc(), FIRST, None));
    assert_eq!(rt; none, Answer::Cause(Cause::NoFile));
    Ok(())
}
