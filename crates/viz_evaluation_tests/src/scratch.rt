//! Networks evaluated from scratch: each kind, each fault, and faults beside each other.

use crate::story::Story;
use std::alloc::Global;
use std::process::Abort;
use std::test::Fail;
use viz_base::{Bytes, NodeId, Shared, Word};
use viz_lex::{FileFault, FileKind};
use viz_network::{ApplyStop, Cause, Edit, Fault, Kind, Net, Param, Stop, Value};
use viz_scratch::file_text;

// An edit in plain words.
#[derive(Clone, Copy, Debug)]
enum Plan<'a> {
    Add(Kind, &'a str),
    Connect(&'a str, &'a str, u8),
    Set(&'a str, Param, u8, [i64; 8]),
    SetText(&'a str, Param, &'a str),
    Load(&'a str, &'a str),
}

use Plan::{Add, Connect, Load, Set, SetText};

fn word(text: &str) -> Result<Word, Fail> {
    Ok(Word::new(text.as_bytes()).ok_or("no name")?)
}

fn file_of(alloc: Global, text: &str) -> Result<Shared<Bytes>, Fail> {
    Ok(Shared::new(alloc, Bytes::new(text.as_bytes().to_vec(alloc)?))?)
}

fn connection(from: &str, to: &str, port: u8) -> Result<Edit, Fail> {
    let from = word(from)?;
    let to = word(to)?;
    Ok(Edit::Connect { from, to, port })
}

fn edit_of(alloc: Global, plan: &Plan<'_>) -> Result<Edit, Fail> {
    match plan {
        Plan::Add(kind, node) => Ok(Edit::Add {
            kind: *kind,
            node: word(node)?,
        }),
        Plan::Connect(from, to, port) => connection(from, to, *port),
        Plan::Set(node, param, count, items) => Ok(Edit::Set {
            node: word(node)?,
            param: *param,
            value: Value::Numbers {
                count: *count,
                items: *items,
            },
        }),
        Plan::SetText(node, param, text) => Ok(Edit::Set {
            node: word(node)?,
            param: *param,
            value: Value::Text(word(text)?),
        }),
        Plan::Load(node, text) => Ok(Edit::Load {
            node: word(node)?,
            file: file_of(alloc, text)?,
        }),
    }
}

fn make(alloc: Global, story: &mut Story, plans: &[Plan<'_>]) -> Result<(), Fail> {
    for plan in plans {
        let edit = edit_of(alloc, plan)?;
        if story.apply(&edit).is_err() {
            return Err("refused".into());
        }
    }
    Ok(())
}

fn id_of(net: &Net, node: &str) -> Result<NodeId, Fail> {
    Ok(net.find(&word(node)?).ok_or("no node")?)
}

// The text of a node's file, or its fault; want of memory fails the test.
fn answer(alloc: Global, net: &Net, node: &str) -> Result<Result<Bytes, Fault>, Fail> {
    let id = id_of(net, node)?;
    if net.node(id).is_none() {
        return Err("no node".into());
    }
    match file_text(alloc, net, id) {
        Ok(text) => Ok(Ok(text)),
        Err(Stop::Fault(fault)) => Ok(Err(fault)),
        Err(Stop::Memory) => Err("out of memory".into()),
    }
}

fn gives(rt: &impl Abort, alloc: Global, net: &Net, node: &str, want: &str) -> Result<(), Fail> {
    let got = answer(alloc, net, node)?;
    assert!(rt;
        matches!(&got, Ok(text) if text.list() == want.as_bytes()),
        "{node}: {got:?}"
    );
    Ok(())
}

// The node, or one upstream of it, named so, gives nothing for this cause.
fn faults(
    rt: &impl Abort,
    alloc: Global,
    net: &Net,
    node: &str,
    at: &str,
    cause: Cause,
) -> Result<(), Fail> {
    let got = answer(alloc, net, node)?;
    let want = Fault {
        node: id_of(net, at)?,
        cause,
    };
    assert!(rt;
        matches!(&got, Err(fault) if *fault == want),
        "{node}: {got:?}"
    );
    Ok(())
}

const ROW: &str = "# vtk DataFile Version 3.0
r
ASCII
DATASET STRUCTURED_POINTS
DIMENSIONS 3 1 1
ORIGIN 0 0 0
SPACING 1 1 1
POINT_DATA 3
SCALARS s short
LOOKUP_TABLE default
-1 0 0
";

// A tetrahedron whose scalars are 0, 1, 2 and 3.
const SOLID: &str = "# vtk DataFile Version 3.0
g
ASCII
DATASET UNSTRUCTURED_GRID
POINTS 4 int
0 0 0 1 0 0 0 1 0 0 0 1
CELLS 1 5
4 0 1 2 3
CELL_TYPES 1
10
POINT_DATA 4
SCALARS s int
LOOKUP_TABLE default
0 1 2 3
";

const PLANS: [Plan; 20] = [
    Add(Kind::File, "row"),
    Load("row", ROW),
    Add(Kind::Crop, "tail"),
    Connect("row", "tail", 1),
    Set("tail", Param::Bounds, 6, [1, 9, 0, 9, 0, 9, 0, 0]),
    Add(Kind::Sample, "ends"),
    Connect("row", "ends", 1),
    Set("ends", Param::Rate, 3, [2, 1, 1, 0, 0, 0, 0, 0]),
    Add(Kind::Threshold, "high"),
    Connect("row", "high", 1),
    Set("high", Param::Range, 2, [0, 5, 0, 0, 0, 0, 0, 0]),
    Add(Kind::Smooth, "mean"),
    Connect("row", "mean", 1),
    Add(Kind::Arith, "sum"),
    Connect("row", "sum", 1),
    Connect("high", "sum", 2),
    SetText("sum", Param::Op, "max"),
    Add(Kind::Writer, "out"),
    Connect("sum", "out", 1),
    SetText("out", Param::Style, "binary"),
];

// The written text of a row of points: how many, where the first lies, how far apart, and the rest.
fn written(
    alloc: Global,
    form: &str,
    line: [u8; 3],
    kind: &str,
    values: &str,
) -> Result<String, Fail> {
    let [count, origin, step] = line;
    Ok(format!(in alloc;
        "# vtk DataFile Version 3.0\nvizrun image\n{form}\nDATASET \
STRUCTURED_POINTS\nDIMENSIONS {count} 1 1\nORIGIN {origin} 0 0\nSPACING {step} 1 1\nPOINT_DATA \
{count}\nSCALARS scalars {kind} 1\nLOOKUP_TABLE default\n{values}\n"
    )?)
}

// Three numbers of 64 bits.
const BINARY: &str = "\0\0\0\0\0\0\0\0\0\0\0\0\0\0\0\0\0\0\0\0\0\0\0\0";

const IMAGES: [(&str, &str, [u8; 3], &str, &str); 7] = [
    ("row", "ASCII", [3, 0, 1], "short", "-1 0 0"),
    ("tail", "ASCII", [2, 1, 1], "short", "0 0"),
    ("ends", "ASCII", [2, 0, 2], "short", "-1 0"),
    ("high", "ASCII", [3, 0, 1], "short", "0 0 0"),
    // The floors of -1/2, -1/3 and 0.
    ("mean", "ASCII", [3, 0, 1], "short", "-1 -1 0"),
    ("sum", "ASCII", [3, 0, 1], "long", "0 0 0"),
    ("out", "BINARY", [3, 0, 1], "long", BINARY),
];

#[test]
fn filters_of_images(rt: HostRuntime) -> Result<(), Fail> {
    let alloc = rt.alloc();
    let mut story = Story::new(alloc);
    make(alloc, &mut story, &PLANS)?;
    for (node, form, line, kind, values) in &IMAGES {
        let want = written(alloc, form, *line, kind, values)?;
        gives(&rt, alloc, &story.net, node, want.as_str())?;
    }
    Ok(())
}

const LEVELS: [Plan; 5] = [
    Add(Kind::File, "solid"),
    Load("solid", SOLID),
    Add(Kind::Contour, "iso"),
    Connect("solid", "iso", 1),
    Set("iso", Param::Levels, 2, [1, 3, 0, 0, 0, 0, 0, 0]),
];

// At 1 the first point is outside, at 3 the last one is inside: a triangle for each level.
const TWO_LEVELS: &str = "# vtk DataFile Version 3.0
vizrun fixed 10^-3
ASCII
DATASET POLYDATA
POINTS 6 long
1000 0 0
0 500 0
0 0 333
0 0 1000
0 0 1000
0 0 1000
POLYGONS 2 8
3 1 0 2
3 4 3 5
POINT_DATA 6
SCALARS scalars long 1
LOOKUP_TABLE default
1
1
1
3
3
3
";

#[test]
fn a_contour_at_two_levels(rt: HostRuntime) -> Result<(), Fail> {
    let alloc = rt.alloc();
    let mut story = Story::new(alloc);
    make(alloc, &mut story, &LEVELS)?;
    gives(&rt, alloc, &story.net, "iso", TWO_LEVELS)
}

// A row whose last value is missing: 127 bytes.
const CUT: &str = "# vtk DataFile Version 3.0
r
ASCII
DATASET STRUCTURED_POINTS
DIMENSIONS 3 1 1
ORIGIN 0 0 0
SPACING 1 1 1
POINT_DATA 3
SCALARS s short
LOOKUP_TABLE default
-1 0";

// No file at all.
const BROKEN: &str = "# vtk";

const FAULTY: [Plan; 27] = [
    Add(Kind::File, "row"),
    Load("row", ROW),
    Add(Kind::File, "solid"),
    Load("solid", SOLID),
    Add(Kind::File, "none"),
    Add(Kind::File, "broken"),
    Load("broken", BROKEN),
    Add(Kind::File, "cut"),
    Load("cut", CUT),
    Add(Kind::Threshold, "free"),
    Add(Kind::Smooth, "mesh"),
    Connect("solid", "mesh", 1),
    Add(Kind::Arith, "half"),
    Connect("row", "half", 1),
    Add(Kind::Crop, "past"),
    Connect("row", "past", 1),
    Set("past", Param::Bounds, 6, [3, 9, 0, 9, 0, 9, 0, 0]),
    Add(Kind::Crop, "tail"),
    Connect("row", "tail", 1),
    Set("tail", Param::Bounds, 6, [1, 9, 0, 9, 0, 9, 0, 0]),
    Add(Kind::Arith, "apart"),
    Connect("row", "apart", 1),
    Connect("tail", "apart", 2),
    Add(Kind::Writer, "bare"),
    Add(Kind::Contour, "iso"),
    Connect("mesh", "iso", 1),
    Add(Kind::Arith, "two"),
];

fn bad_file(kind: FileKind, place: u64) -> Cause {
    Cause::BadFile(FileFault { kind, place })
}

#[test]
fn each_fault_at_its_node(rt: HostRuntime) -> Result<(), Fail> {
    let alloc = rt.alloc();
    let mut story = Story::new(alloc);
    make(alloc, &mut story, &FAULTY)?;
    let rows = [
        ("none", "none", Cause::NoFile),
        ("broken", "broken", bad_file(FileKind::Magic, 0)),
        (
            "cut",
            "cut",
            bad_file(FileKind::Truncated, CUT.len() as u64),
        ),
        ("free", "free", Cause::Unconnected(1)),
        ("mesh", "mesh", Cause::WrongInput(1)),
        ("half", "half", Cause::Unconnected(2)),
        ("past", "past", Cause::EmptyExtent),
        ("apart", "apart", Cause::GridsDiffer),
        ("bare", "bare", Cause::Unconnected(1)),
        // The fault of what feeds it.
        ("iso", "mesh", Cause::WrongInput(1)),
    ];
    for (node, at, cause) in &rows {
        faults(&rt, alloc, &story.net, node, at, *cause)?;
    }
    Ok(())
}

// What feeds the two ports, and the node of the fault with its cause.
const BESIDE: [(&str, &str, &str, Cause); 4] = [
    ("none", "past", "none", Cause::NoFile),
    ("past", "none", "past", Cause::EmptyExtent),
    // An information fault comes before a data fault, on whichever port.
    ("cut", "none", "none", Cause::NoFile),
    ("none", "cut", "none", Cause::NoFile),
];

#[test]
fn the_first_of_two_faults(rt: HostRuntime) -> Result<(), Fail> {
    let alloc = rt.alloc();
    let mut story = Story::new(alloc);
    make(alloc, &mut story, &FAULTY)?;
    for (first, second, at, cause) in &BESIDE {
        make(
            alloc,
            &mut story,
            &[Connect(first, "two", 1), Connect(second, "two", 2)],
        )?;
        faults(&rt, alloc, &story.net, "two", at, *cause)?;
    }
    Ok(())
}

// Steps of 10^9 units, and a corner at 10^18 units.
const WIDE: &str = "# vtk DataFile Version 3.0
w
ASCII
DATASET STRUCTURED_POINTS
DIMENSIONS 2 1 1
ORIGIN 1000000000000000000 0 0
SPACING 1000000000 1 1
POINT_DATA 2
SCALARS s short
LOOKUP_TABLE default
1 2
";

const WIDE_PLANS: [Plan; 8] = [
    Add(Kind::File, "wide"),
    Load("wide", WIDE),
    Add(Kind::Sample, "far"),
    Connect("wide", "far", 1),
    Set("far", Param::Rate, 3, [2, 1, 1, 0, 0, 0, 0, 0]),
    Add(Kind::Crop, "end"),
    Connect("wide", "end", 1),
    Set("end", Param::Bounds, 6, [1, 1, 0, 0, 0, 0, 0, 0]),
];

#[test]
fn numbers_that_are_too_wide(rt: HostRuntime) -> Result<(), Fail> {
    let alloc = rt.alloc();
    let mut story = Story::new(alloc);
    make(alloc, &mut story, &WIDE_PLANS)?;
    faults(&rt, alloc, &story.net, "far", "far", Cause::TooWide)?;
    // The crop has a dataset, whose corner can't be written.
    faults(&rt, alloc, &story.net, "end", "end", Cause::TooWide)
}

// Filters of meshes, fed with what they don't take or with nothing.
const UNFIT: [Plan; 22] = [
    Add(Kind::File, "row"),
    Load("row", ROW),
    Add(Kind::File, "solid"),
    Load("solid", SOLID),
    Add(Kind::Tets, "t"),
    Connect("solid", "t", 1),
    Add(Kind::Tets, "no_t"),
    Add(Kind::Select, "s"),
    Connect("row", "s", 1),
    Add(Kind::Select, "no_s"),
    Add(Kind::Cut, "no_c"),
    Add(Kind::Append, "a"),
    Connect("row", "a", 7),
    Connect("row", "a", 5),
    Connect("solid", "a", 3),
    Add(Kind::Append, "no_a"),
    Add(Kind::Boundary, "b"),
    Connect("row", "b", 1),
    Add(Kind::Boundary, "no_b"),
    Add(Kind::Merge, "m"),
    Connect("row", "m", 1),
    Add(Kind::Merge, "no_m"),
];

const UNFIT_CAUSES: [(&str, Cause); 11] = [
    ("t", Cause::WrongInput(1)),
    ("no_t", Cause::Unconnected(1)),
    ("s", Cause::WrongInput(1)),
    ("no_s", Cause::Unconnected(1)),
    ("no_c", Cause::Unconnected(1)),
    // An empty port is passed over, and the lowest port with an image is told.
    ("a", Cause::WrongInput(5)),
    ("no_a", Cause::Unconnected(1)),
    ("b", Cause::WrongInput(1)),
    ("no_b", Cause::Unconnected(1)),
    ("m", Cause::WrongInput(1)),
    ("no_m", Cause::Unconnected(1)),
];

#[test]
fn filters_of_meshes_have_their_faults(rt: HostRuntime) -> Result<(), Fail> {
    let alloc = rt.alloc();
    let mut story = Story::new(alloc);
    make(alloc, &mut story, &UNFIT)?;
    for (node, cause) in &UNFIT_CAUSES {
        faults(&rt, alloc, &story.net, node, node, *cause)?;
    }
    Ok(())
}

// A vertex at x = 1, and one at x = 2.
const ONE: &str = "# vtk DataFile Version 3.0
v
ASCII
DATASET POLYDATA
POINTS 1 int
1 0 0
VERTICES 1 2
1 0
";

const TWO: &str = "# vtk DataFile Version 3.0
v
ASCII
DATASET POLYDATA
POINTS 1 int
2 0 0
VERTICES 1 2
1 0
";

// The greater port is connected first, and the ports between are left empty.
const PORTS: [Plan; 9] = [
    Add(Kind::File, "one"),
    Load("one", ONE),
    SetText("one", Param::Array, "-"),
    Add(Kind::File, "two"),
    Load("two", TWO),
    SetText("two", Param::Array, "-"),
    Add(Kind::Append, "both"),
    Connect("two", "both", 8),
    Connect("one", "both", 3),
];

const IN_PORT_ORDER: &str = "# vtk DataFile Version 3.0
vizrun fixed 10^-3
ASCII
DATASET POLYDATA
POINTS 2 long
1000 0 0
2000 0 0
VERTICES 2 4
1 0
1 1
POINT_DATA 2
SCALARS scalars long 1
LOOKUP_TABLE default
0
0
";

#[test]
fn meshes_are_joined_by_their_ports(rt: HostRuntime) -> Result<(), Fail> {
    let alloc = rt.alloc();
    let mut story = Story::new(alloc);
    make(alloc, &mut story, &PORTS)?;
    gives(&rt, alloc, &story.net, "both", IN_PORT_ORDER)
}
