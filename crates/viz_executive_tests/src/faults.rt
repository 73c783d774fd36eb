//! Each fault of an update is that of an evaluation from scratch.

use crate::edits::{Plan, network, node};
use crate::kinds::SOLID;
use crate::story::Story;
use crate::updates::{Outcome, update};
use Plan::{Add, Connect, Load, Set};
use std::test::Fail;
use viz_base::OpenGate;
use viz_lex::{FileFault, FileKind};
use viz_network::{Cause, Fault, Kind, Param};

// No file at all.
const BROKEN: &str = "# vtk";

// A row whose last value is missing.
const SHORT: &str = "# vtk DataFile Version 3.0
r
ASCII
DATASET STRUCTURED_POINTS
DIMENSIONS 3 1 1
ORIGIN 0 0 0
SPACING 1 1 1
POINT_DATA 3
SCALARS s short
LOOKUP_TABLE default
-1 0";

// Four cubes, one above the other: 2^58 + 1 in the lowest plane, and 2^64 - 1 in the highest one.
// At the level 2^57 the numbers of the last layer alone are wide.
const COLUMN: &str = "# vtk DataFile Version 3.0
column
ASCII
DATASET STRUCTURED_POINTS
DIMENSIONS 2 2 5
ORIGIN 0 0 0
SPACING 1 1 1
POINT_DATA 20
SCALARS s unsigned_long
LOOKUP_TABLE default
0 0 0 288230376151711745
0 0 0 0
0 0 0 0
0 0 0 0
0 0 0 18446744073709551615
";

const LEVEL: [i64; 8] = [144_115_188_075_855_872, 0, 0, 0, 0, 0, 0, 0];

const EDITS: [Plan; 41] = [
    Add(Kind::File, "src"),
    Load("src", SOLID),
    Add(Kind::File, "none"),
    Add(Kind::File, "broken"),
    Load("broken", BROKEN),
    Add(Kind::File, "short"),
    Load("short", SHORT),
    Add(Kind::File, "column"),
    Load("column", COLUMN),
    Add(Kind::Threshold, "free"),
    Add(Kind::Tets, "tets"),
    Connect("src", "tets", 1),
    Add(Kind::Smooth, "mesh"),
    Connect("tets", "mesh", 1),
    Add(Kind::Arith, "half"),
    Connect("src", "half", 1),
    Add(Kind::Crop, "past"),
    Connect("src", "past", 1),
    Set("past", Param::Bounds, 6, [3, 9, 0, 9, 0, 9, 0, 0]),
    Add(Kind::Crop, "tail"),
    Connect("src", "tail", 1),
    Set("tail", Param::Bounds, 6, [1, 9, 0, 9, 0, 9, 0, 0]),
    Add(Kind::Arith, "apart"),
    Connect("src", "apart", 1),
    Connect("tail", "apart", 2),
    Add(Kind::Writer, "bare"),
    Add(Kind::Contour, "iso"),
    Connect("mesh", "iso", 1),
    Add(Kind::Threshold, "rest"),
    Connect("short", "rest", 1),
    Add(Kind::Contour, "wide"),
    Connect("column", "wide", 1),
    Set("wide", Param::Levels, 1, LEVEL),
    Add(Kind::Contour, "zero"),
    Connect("short", "zero", 1),
    Add(Kind::Append, "first"),
    Connect("wide", "first", 1),
    Connect("zero", "first", 2),
    Add(Kind::Append, "last"),
    Connect("wide", "last", 2),
    Connect("zero", "last", 1),
];

const NO_FILE: Cause = Cause::BadFile(FileFault {
    kind: FileKind::Magic,
    place: 0,
});

// At the end of the row, behind 159 bytes.
const CUT_OFF: Cause = Cause::BadFile(FileFault {
    kind: FileKind::Truncated,
    place: 159,
});

// The sink, the node of its fault, and the cause.
const ROWS: [(&str, &str, Cause); 14] = [
    ("none", "none", Cause::NoFile),
    ("broken", "broken", NO_FILE),
    ("rest", "short", CUT_OFF),
    ("free", "free", Cause::Unconnected(1)),
    ("mesh", "mesh", Cause::WrongInput(1)),
    ("half", "half", Cause::Unconnected(2)),
    ("past", "past", Cause::EmptyExtent),
    ("apart", "apart", Cause::GridsDiffer),
    ("bare", "bare", Cause::Unconnected(1)),
    // the fault of what feeds it
    ("iso", "mesh", Cause::WrongInput(1)),
    // a number is wide in one of four pieces
    ("wide", "wide", Cause::TooWide),
    // the file is read before the section is made, and the lower port comes first
    ("first", "wide", Cause::TooWide),
    ("last", "short", CUT_OFF),
    ("zero", "short", CUT_OFF),
];

fn fault(story: &Story, at: &str, cause: Cause) -> Result<Outcome, Fail> {
    let node = node(story, at)?;
    Ok(Outcome::Fault(Fault { node, cause }))
}

#[test]
fn faults_are_those_of_scratch(rt: HostRuntime) -> Result<(), Fail> {
    let mut story = network(rt.alloc(), &EDITS)?;
    for (sink, at, cause) in &ROWS {
        let want = fault(&story, at, *cause)?;
        for pieces in [1, 4] {
            let got = update(&rt, rt.alloc(), &mut story, sink, (pieces, 2), &OpenGate)?;
            assert_eq!(rt; got, want, "{sink} in {pieces}");
        }
    }
    Ok(())
}
