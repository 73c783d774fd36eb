//! What later updates find kept, and what no update keeps.

use crate::edits::{Plan, network, node};
use crate::kinds::SOLID;
use crate::story::Story;
use crate::updates::{Row, got, wanted};
use Plan::{Add, Connect, Load, Set};
use std::alloc::Global;
use std::test::Fail;
use viz_base::{NodeId, OpenGate};
use viz_network::{Kind, Param};
use viz_parts::{Part, Stored};

// A contour of the mean of an image.
const SURFACE: [Plan; 7] = [
    Add(Kind::File, "src"),
    Load("src", SOLID),
    Add(Kind::Smooth, "mean"),
    Connect("src", "mean", 1),
    Add(Kind::Contour, "iso"),
    Connect("mean", "iso", 1),
    Set("iso", Param::Levels, 1, [4, 0, 0, 0, 0, 0, 0, 0]),
];

const LEVEL: Plan<'static> = Set("iso", Param::Levels, 1, [5, 0, 0, 0, 0, 0, 0, 0]);

const RADIUS: Plan<'static> = Set("mean", Param::Radius, 1, [2, 0, 0, 0, 0, 0, 0, 0]);

const ROWS: [Row<'static>; 9] = [
    (&[], "iso", 1, 3, 3, 0),
    // all is kept, and the contour alone is used
    (&[], "iso", 1, 0, 0, 1),
    (&[], "mean", 3, 0, 0, 1),
    // a level behind a kept mean
    (&[LEVEL], "iso", 1, 1, 1, 1),
    // a whole mesh serves no piece, and a whole image each block
    (&[], "iso", 2, 2, 2, 1),
    (&[], "iso", 2, 0, 0, 2),
    // a radius behind a kept file
    (&[RADIUS], "iso", 1, 2, 2, 1),
    // a file that is loaded anew
    (&[Load("src", SOLID)], "iso", 1, 3, 3, 0),
    (&[], "src", 1, 0, 0, 1),
];

#[test]
fn what_is_kept_is_not_made_again(rt: HostRuntime) -> Result<(), Fail> {
    let mut story = network(rt.alloc(), &SURFACE)?;
    for (i, row) in ROWS.iter().enumerate() {
        let got = got(&rt, rt.alloc(), &mut story, row, &OpenGate)?;
        assert_eq!(rt; got, wanted(row), "row {i}");
    }
    Ok(())
}

const RELEASE: Plan<'static> = Set("mean", Param::Release, 1, [1, 0, 0, 0, 0, 0, 0, 0]);

const RELEASED: [Row<'static>; 4] = [
    // the mean runs, and no part of it is among the made
    (&[RELEASE], "iso", 1, 3, 2, 0),
    (&[], "iso", 1, 0, 0, 1),
    (&[LEVEL], "iso", 1, 2, 1, 1),
    // also where the node is the sink
    (&[], "mean", 2, 2, 0, 1),
];

#[test]
fn a_node_with_release_keeps_nothing(rt: HostRuntime) -> Result<(), Fail> {
    let mut story = network(rt.alloc(), &SURFACE)?;
    for (i, row) in RELEASED.iter().enumerate() {
        let got = got(&rt, rt.alloc(), &mut story, row, &OpenGate)?;
        assert_eq!(rt; got, wanted(row), "row {i}");
    }
    Ok(())
}

// A contour, and then the same at another level.
const LEVELS: [Row<'static>; 2] = [(&[], "iso", 1, 3, 3, 0), (&[LEVEL], "iso", 1, 1, 1, 1)];

// Whether an entry is of this node, and has a part of no sheets or any other, as the row says.
fn is_left(entry: &Stored, (node, empty): (NodeId, bool)) -> bool {
    let none = match entry.part.get() {
        Part::Mesh(sheets) => sheets.is_empty(),
        Part::Image(_) => false,
    };
    entry.key.node == node && none == empty
}

// Whether these are the kept parts, the most recently used first.
fn are_left(alloc: Global, story: &Story, want: [(NodeId, bool); 4]) -> bool {
    let Some(pinned) = story.pin(alloc) else {
        return false;
    };
    let entries = pinned.entries.list();
    for (i, row) in want.iter().enumerate() {
        match entries.get(i) {
            Some(entry) if is_left(entry, *row) => {}
            _ => return false,
        }
    }
    entries.len() == want.len()
}

#[test]
fn an_overtaken_part_is_given_up_where_it_stands(rt: HostRuntime) -> Result<(), Fail> {
    let alloc = rt.alloc();
    let mut story = network(alloc, &SURFACE)?;
    for (i, row) in LEVELS.iter().enumerate() {
        let got = got(&rt, alloc, &mut story, row, &OpenGate)?;
        assert_eq!(rt; got, wanted(row), "row {i}");
    }
    let src = node(&story, "src")?;
    let mean = node(&story, "mean")?;
    let iso = node(&story, "iso")?;
    // the mean was used by the second contour, whose part is new; the first one's is gone
    let want = [(iso, false), (mean, false), (iso, true), (src, false)];
    assert!(rt; are_left(alloc, &story, want));
    Ok(())
}
