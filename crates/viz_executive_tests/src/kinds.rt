//! All kinds of node, in several pieces and by several workers.

use crate::edits::{Plan, network};
use crate::updates::{Outcome, fresh, update};
use Plan::{Add, Connect, Load, Set, SetText};
use std::test::Fail;
use viz_base::OpenGate;
use viz_network::{Kind, Param};

/// Three layers of four cubes each.
pub(crate) const SOLID: &str = "# vtk DataFile Version 3.0
solid
ASCII
DATASET STRUCTURED_POINTS
DIMENSIONS 3 3 4
ORIGIN 0 0 0
SPACING 1 1 1
POINT_DATA 36
SCALARS s int
LOOKUP_TABLE default
0 1 2 3 4 5 6 7 8
8 7 6 5 9 3 2 1 0
1 5 1 5 9 5 1 5 1
0 2 4 6 8 6 4 2 0
";

const EDITS: [Plan; 44] = [
    Add(Kind::File, "src"),
    Load("src", SOLID),
    Add(Kind::Crop, "crop"),
    Connect("src", "crop", 1),
    Set("crop", Param::Bounds, 6, [0, 1, 0, 2, 1, 3, 0, 0]),
    Add(Kind::Sample, "samp"),
    Connect("src", "samp", 1),
    Set("samp", Param::Rate, 3, [1, 2, 2, 0, 0, 0, 0, 0]),
    Add(Kind::Threshold, "high"),
    Connect("src", "high", 1),
    Set("high", Param::Range, 2, [2, 7, 0, 0, 0, 0, 0, 0]),
    Add(Kind::Smooth, "mean"),
    Connect("src", "mean", 1),
    Add(Kind::Arith, "sum"),
    Connect("high", "sum", 1),
    Connect("mean", "sum", 2),
    SetText("sum", Param::Op, "max"),
    Add(Kind::Tets, "tets"),
    Connect("mean", "tets", 1),
    Add(Kind::Select, "some"),
    Connect("tets", "some", 1),
    Set("some", Param::Range, 2, [3, 5, 0, 0, 0, 0, 0, 0]),
    SetText("some", Param::Mode, "any"),
    Add(Kind::Contour, "iso"),
    Connect("src", "iso", 1),
    Set("iso", Param::Levels, 2, [4, 6, 0, 0, 0, 0, 0, 0]),
    Add(Kind::Cut, "cut"),
    Connect("some", "cut", 1),
    Set("cut", Param::Plane, 4, [2, 0, 0, 1, 0, 0, 0, 0]),
    Add(Kind::Append, "both"),
    Connect("cut", "both", 7),
    Connect("iso", "both", 2),
    Add(Kind::Boundary, "edge"),
    Connect("both", "edge", 1),
    Add(Kind::Boundary, "skin"),
    Connect("some", "skin", 1),
    Add(Kind::Merge, "one"),
    Connect("both", "one", 1),
    Add(Kind::Writer, "out"),
    Connect("one", "out", 1),
    Add(Kind::Writer, "shot"),
    Connect("sum", "shot", 1),
    Add(Kind::Boundary, "rim"),
    Connect("out", "rim", 1),
];

const NODES: [&str; 17] = [
    "src", "crop", "samp", "high", "mean", "sum", "tets", "some", "iso", "cut", "both", "edge",
    "skin", "one", "out", "shot", "rim",
];

// Pieces and workers.
#[rattlefmt::skip]
const NUMBERS: [(u32, u32); 12] = [
    (1, 1), (1, 2), (1, 4),
    (3, 1), (3, 2), (3, 4),
    (2, 1), (2, 2), (2, 4),
    (7, 1), (7, 2), (7, 4),
];

fn is_same(outcome: Outcome) -> bool {
    matches!(outcome, Outcome::Same { .. })
}

// Updates with nothing kept, of each node, in so many pieces by so many workers.
#[test]
fn updates_give_what_scratch_gives(rt: HostRuntime) -> Result<(), Fail> {
    for node in NODES {
        for numbers in NUMBERS {
            let got = fresh(&rt, rt.alloc(), &EDITS, node, numbers, &OpenGate)?;
            assert!(rt; is_same(got), "{node} {numbers:?}: {got:?}");
        }
    }
    Ok(())
}

// The same with all kept that the updates before made.
#[test]
fn updates_with_kept_parts_give_what_scratch_gives(rt: HostRuntime) -> Result<(), Fail> {
    let mut story = network(rt.alloc(), &EDITS)?;
    for numbers in NUMBERS {
        for node in NODES {
            let got = update(&rt, rt.alloc(), &mut story, node, numbers, &OpenGate)?;
            assert!(rt; is_same(got), "{node} {numbers:?}: {got:?}");
        }
    }
    Ok(())
}
