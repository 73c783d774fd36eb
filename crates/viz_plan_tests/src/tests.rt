//! What updates of small networks have to make, counted by hand.

use crate::table::{Asked, ROWS, Row};
use std::alloc::Global;
use std::marker::Model;
use std::test::Fail;
use viz_base::{Bytes, NodeId, Shape, Shared, Word};
use viz_extent::Extent;
use viz_network::{ApplyStop, Cause, Edit, Kind, Net, Param, Stop, Value, networks_are_sound};
use viz_node_meaning::{Grid, Information, Lengths};
use viz_parts::{Key, Part, Request, Stored};
use viz_plan::{Plan, Told, demand, inform};

// A network and the position of its last edit.
#[derive(Drop)]
struct Story {
    net: Net,
    at: u32,
}

impl Model for Story {
    ghost use Rattle.viz_network.specs.Network.{Network};
    ghost use Rattle.viz_network.specs.EqualStamps.{IsSound};

    ghost Value = { Network };

    ghost view = { λ story. story.net };

    ghost invariant = { λ story. IsSound story.at story.net };
}

impl Story {
    fn new(alloc: Global) -> Story {
        Story {
            net: Net::new(alloc),
            at: 0,
        }
    }

    fn apply(&mut self, edit: &Edit) -> Result<(), ApplyStop> {
        if self.at == u32::MAX {
            return Err(ApplyStop::Memory);
        }
        networks_are_sound();
        let at = self.at + 1;
        let answer = self.net.apply(at, edit);
        self.at = at;
        answer
    }

    fn node(&self, name: &str) -> Result<NodeId, Fail> {
        Ok(self.net.find(&word(name)?).ok_or("a node")?)
    }
}

fn word(text: &str) -> Result<Word, Fail> {
    Ok(Word::new(text.as_bytes()).ok_or("no name")?)
}

// A node, its kind, and the nodes that feed its first two ports, or "".
type Line<'a> = (&'a str, Kind, &'a str, &'a str);

fn add(story: &mut Story, line: Line<'_>) -> Result<(), Fail> {
    let (name, kind, first, second) = line;
    let node = word(name)?;
    story.apply(&Edit::Add { kind, node })?;
    for (port, from) in [(1, first), (2, second)] {
        if from != "" {
            let from = word(from)?;
            story.apply(&Edit::Connect {
                from,
                to: node,
                port,
            })?;
        }
    }
    Ok(())
}

fn network(alloc: Global, lines: &[Line<'_>]) -> Result<Story, Fail> {
    let mut story = Story::new(alloc);
    for line in lines {
        add(&mut story, *line)?;
    }
    Ok(story)
}

fn block(bounds: [u32; 6]) -> Request {
    match Extent::new(bounds) {
        Some(extent) => Request::Block(extent),
        None => piece(9, 0, 0),
    }
}

fn piece(p: u32, n: u32, ghosts: u32) -> Request {
    Request::Piece { p, n, ghosts }
}

fn grid(bounds: [u32; 6]) -> Result<Grid, Fail> {
    let extent = Extent::new(bounds).ok_or("an extent")?;
    let origin = Lengths { x: 0, y: 0, z: 0 };
    let spacing = Lengths { x: 1, y: 1, z: 1 };
    Ok(Grid {
        extent,
        origin,
        spacing,
    })
}

// The images of a network; all other nodes have meshes.
type Images<'a> = &'a [(&'a str, [u32; 6])];

fn told(alloc: Global, story: &Story, images: Images<'_>) -> Result<Vec<Told>, Fail> {
    let mut all = Vec::new(alloc);
    for (name, bounds) in images {
        let information = Information::OfImage(grid(*bounds)?);
        let node = story.node(name)?;
        all.push(Told { node, information })?;
    }
    Ok(all)
}

// What is kept: a node, how much older its stamp is, and the request.
type Kept<'a> = &'a [(&'a str, u32, Request)];

fn entry(
    alloc: Global,
    story: &Story,
    name: &str,
    older: u32,
    request: Request,
) -> Result<Stored, Fail> {
    let node = story.node(name)?;
    let stamp = story.net.stamp(node).ok_or("a stamp")?;
    let part = Shared::new(alloc, Part::Mesh(Vec::new(alloc)))?;
    let key = Key {
        node,
        stamp: stamp.saturating_sub(older),
        request,
    };
    Ok(Stored { key, part })
}

fn stored(alloc: Global, story: &Story, kept: Kept<'_>) -> Result<Vec<Stored>, Fail> {
    let mut all = Vec::new(alloc);
    for (name, older, request) in kept {
        let one = entry(alloc, story, name, *older, *request)?;
        all.push(one)?;
    }
    Ok(all)
}

// How many tasks a plan has, in how many levels, and how many entries it uses.
fn counts(plan: &Plan) -> (usize, usize, usize) {
    let mut tasks: usize = 0;
    for level in &plan.levels {
        tasks = tasks.saturating_add(level.len());
    }
    (tasks, plan.levels.len(), plan.used.len())
}

fn demanded(
    alloc: Global,
    lines: &[Line<'_>],
    images: Images<'_>,
    kept: Kept<'_>,
    sink: &str,
    pieces: u32,
) -> Result<(usize, usize, usize), Fail> {
    let story = network(alloc, lines)?;
    let told = told(alloc, &story, images)?;
    let entries = stored(alloc, &story, kept)?;
    let sink = story.node(sink)?;
    planned(alloc, &story, &told, &entries, sink, pieces)
}

fn planned(
    alloc: Global,
    story: &Story,
    told: &[Told],
    entries: &[Stored],
    sink: NodeId,
    pieces: u32,
) -> Result<(usize, usize, usize), Fail> {
    if pieces == 0 || pieces > 64 {
        return Err("a number of pieces")?;
    }
    let shape = Shape { pieces, workers: 1 };
    Ok(counts(&demand(alloc, &story.net, told, entries, sink, &shape)?))
}

// An image of eight points, its threshold and a crop of that.
const CROPPED: [Line<'static>; 3] = [
    ("src", Kind::File, "", ""),
    ("t", Kind::Threshold, "src", ""),
    ("c", Kind::Crop, "t", ""),
];

const EIGHT: [u32; 6] = [0, 1, 0, 1, 0, 1];

const FOUR: [u32; 6] = [1, 1, 0, 1, 0, 1];

#[test]
fn slabs_ask_a_file_once(rt: HostRuntime) -> Result<(), Fail> {
    let images = [("src", EIGHT), ("t", EIGHT), ("c", FOUR)];
    for (sink, pieces, want) in [
        ("c", 1, (3, 3, 0)),
        ("c", 2, (5, 3, 0)),
        ("t", 2, (3, 2, 0)),
    ] {
        let got = demanded(rt.alloc(), &CROPPED, &images, &[], sink, pieces)?;
        assert_eq!(rt; got, want, "{sink} {pieces}");
    }
    Ok(())
}

#[test]
fn what_is_kept_is_not_made_again(rt: HostRuntime) -> Result<(), Fail> {
    let images = [("src", EIGHT), ("t", EIGHT), ("c", FOUR)];
    for (older, request, sink, want) in [
        // The threshold is kept whole, and the crop alone is made.
        (0, block(EIGHT), "c", (1, 1, 1)),
        (0, block(EIGHT), "t", (0, 0, 1)),
        // A part of another stamp, and one that is too small.
        (1, block(EIGHT), "c", (3, 3, 0)),
        (0, block([0, 1, 0, 1, 0, 0]), "c", (3, 3, 0)),
    ] {
        let kept = [("t", older, request)];
        let got = demanded(rt.alloc(), &CROPPED, &images, &kept, sink, 1)?;
        assert_eq!(rt; got, want, "{older} {sink}");
    }
    Ok(())
}

// A contour of an image, its boundary, and a writer of that.
const BORDER: [Line<'static>; 4] = [
    ("src", Kind::File, "", ""),
    ("iso", Kind::Contour, "src", ""),
    ("edge", Kind::Boundary, "iso", ""),
    ("out", Kind::Writer, "edge", ""),
];

#[test]
fn pieces_are_asked_for(rt: HostRuntime) -> Result<(), Fail> {
    let images = [("src", EIGHT)];
    for (kept, sink, pieces, want) in [
        // One layer in seven pieces: six have none, and are asked for all the same.
        (piece(0, 9, 0), "iso", 7, (8, 2, 0)),
        (piece(0, 9, 0), "edge", 2, (5, 3, 0)),
        // Requests to a writer go to what feeds it.
        (piece(0, 9, 0), "out", 2, (5, 3, 0)),
        // A boundary asks for a ghost level.
        (piece(0, 2, 0), "edge", 2, (5, 3, 0)),
        (piece(0, 2, 1), "edge", 2, (4, 3, 1)),
        // A whole mesh serves no piece, but itself with any ghost levels.
        (piece(0, 1, 0), "edge", 2, (5, 3, 0)),
        (piece(0, 1, 0), "edge", 1, (1, 1, 1)),
    ] {
        let kept = [("iso", 0, kept)];
        let got = demanded(rt.alloc(), &BORDER, &images, &kept, sink, pieces)?;
        assert_eq!(rt; got, want, "{kept:?} {sink} {pieces}");
    }
    Ok(())
}

// A node that feeds both ports of another, and a writer that nothing feeds.
const TWICE: [Line<'static>; 4] = [
    ("src", Kind::File, "", ""),
    ("t", Kind::Threshold, "src", ""),
    ("sum", Kind::Arith, "t", "t"),
    ("out", Kind::Writer, "", ""),
];

#[test]
fn a_node_on_two_ways_is_made_once(rt: HostRuntime) -> Result<(), Fail> {
    let images = [("src", EIGHT), ("t", EIGHT), ("sum", EIGHT)];
    for (sink, pieces, want) in [
        ("sum", 1, (3, 3, 0)),
        ("sum", 2, (5, 3, 0)),
        ("out", 2, (0, 0, 0)),
    ] {
        let got = demanded(rt.alloc(), &TWICE, &images, &[], sink, pieces)?;
        assert_eq!(rt; got, want, "{sink} {pieces}");
    }
    Ok(())
}

// A contour of an image, and what a first update of it kept.
const SURFACE: [Line<'static>; 2] = [
    ("src", Kind::File, "", ""),
    ("iso", Kind::Contour, "src", ""),
];

// An edit of the contour between two updates.
#[derive(Clone, Copy, Debug)]
enum Between {
    Nothing,
    NewLevel,
    NewNode,
}

fn edit(story: &mut Story, between: Between) -> Result<(), Fail> {
    match between {
        Between::Nothing => Ok(()),
        Between::NewLevel => set_level(story),
        Between::NewNode => replace(story),
    }
}

fn set_level(story: &mut Story) -> Result<(), Fail> {
    let node = word("iso")?;
    let value = Value::Numbers {
        count: 1,
        items: [10, 0, 0, 0, 0, 0, 0, 0],
    };
    story.apply(&Edit::Set {
        node,
        param: Param::Levels,
        value,
    })?;
    Ok(())
}

fn replace(story: &mut Story) -> Result<(), Fail> {
    let node = word("iso")?;
    story.apply(&Edit::Remove { node })?;
    add(story, ("iso", Kind::Contour, "src", ""))
}

fn updated_again(alloc: Global, between: Between) -> Result<(usize, usize, usize), Fail> {
    let mut story = network(alloc, &SURFACE)?;
    let kept = [("src", 0, block(EIGHT)), ("iso", 0, piece(0, 1, 0))];
    let entries = stored(alloc, &story, &kept)?;
    edit(&mut story, between)?;
    let told = told(alloc, &story, &[("src", EIGHT)])?;
    let sink = story.node("iso")?;
    planned(alloc, &story, &told, &entries, sink, 1)
}

// The rows level-changed and node-replaced: the contour alone is made, of the file that is kept.
#[test]
fn level_changed_and_node_replaced(rt: HostRuntime) -> Result<(), Fail> {
    for (between, want) in [
        (Between::Nothing, (0, 0, 1)),
        (Between::NewLevel, (1, 1, 1)),
        (Between::NewNode, (1, 1, 1)),
    ] {
        let got = updated_again(rt.alloc(), between)?;
        assert_eq!(rt; got, want, "{between:?}");
    }
    Ok(())
}

const POINTS: &str = "# vtk DataFile Version 3.0
eight
ASCII
DATASET STRUCTURED_POINTS
DIMENSIONS 2 2 2
ORIGIN 0 0 0
SPACING 1 1 1
POINT_DATA 8
SCALARS s short
LOOKUP_TABLE default
0 1 2 3 4 5 6 7
";

fn load(alloc: Global, story: &mut Story, text: &str) -> Result<(), Fail> {
    let file = Shared::new(alloc, Bytes::new(text.as_bytes().to_vec(alloc)?))?;
    let node = word("src")?;
    story.apply(&Edit::Load { node, file })?;
    Ok(())
}

// What is told of a node's cone, or the cause of its first fault.
fn known(alloc: Global, story: &Story, node: NodeId) -> Result<Result<Vec<Told>, Cause>, Fail> {
    if story.net.node(node).is_none() {
        return Err("no node".into());
    }
    match inform(alloc, &story.net, node) {
        Ok(told) => Ok(Ok(told)),
        Err(Stop::Fault(fault)) => Ok(Err(fault.cause)),
        Err(Stop::Memory) => Err("out of memory".into()),
    }
}

// How many nodes are told, and the plan by them.
fn informed(
    alloc: Global,
    story: &Story,
    sink: &str,
    pieces: u32,
) -> Result<Result<(usize, (usize, usize, usize)), Cause>, Fail> {
    let sink = story.node(sink)?;
    match known(alloc, story, sink)? {
        Ok(told) => {
            let plan = planned(alloc, story, &told, &[], sink, pieces)?;
            Ok(Ok((told.len(), plan)))
        }
        Err(cause) => Ok(Err(cause)),
    }
}

#[test]
fn what_is_informed_is_planned(rt: HostRuntime) -> Result<(), Fail> {
    let alloc = rt.alloc();
    let mut story = network(alloc, &CROPPED)?;
    let bare = informed(alloc, &story, "c", 1)?;
    assert_eq!(rt; bare, Err(Cause::NoFile), "no file");
    load(alloc, &mut story, POINTS)?;
    for (sink, pieces, want) in [
        ("c", 1, (3, (3, 3, 0))),
        ("c", 2, (3, (5, 3, 0))),
        ("t", 2, (2, (3, 2, 0))),
    ] {
        let got = informed(alloc, &story, sink, pieces)?;
        assert_eq!(rt; got, Ok(want), "{sink} {pieces}");
    }
    Ok(())
}

fn request_of(asked: &Asked) -> Request {
    match asked {
        Asked::Block(bounds) => block(*bounds),
        Asked::Piece(p, n, ghosts) => piece(*p, *n, *ghosts),
    }
}

fn row_entries(alloc: Global, story: &Story, row: &Row<'_>) -> Result<Vec<Stored>, Fail> {
    let mut all = Vec::new(alloc);
    for (name, older, asked) in row.kept {
        let one = entry(alloc, story, name, *older, request_of(asked))?;
        all.push(one)?;
    }
    Ok(all)
}

fn of_row(alloc: Global, row: &Row<'_>) -> Result<(usize, usize, usize), Fail> {
    let story = network(alloc, row.lines)?;
    let told = told(alloc, &story, row.images)?;
    let entries = row_entries(alloc, &story, row)?;
    let sink = story.node(row.sink)?;
    planned(alloc, &story, &told, &entries, sink, row.pieces)
}

#[test]
fn plans_are_those_of_a_plain_recursion(rt: HostRuntime) -> Result<(), Fail> {
    for (i, row) in ROWS.iter().enumerate() {
        let got = of_row(rt.alloc(), row)?;
        assert_eq!(rt; got, row.want, "row {i}");
    }
    Ok(())
}
