//! What hubs that keep one part, or two, hand out.

ghost use Rattle.std.specs.Prelude.{◌≡◌, IfOk, IfSome};

use crate::publish_update;
use std::alloc::{AllocError, Global};
use std::process::Abort;
use std::sync::Wait;
use std::test::Fail;
use std::thread::Threads;
use viz_base::{Bytes, NodeId, Shape, Shared, Word};
use viz_batches::Batch;
use viz_history::EditAnswer;
use viz_hub::{Hub, Pass};
use viz_kinds::Kind;
use viz_network::Edit;

// An image of one point.
const POINT: &str = "# vtk DataFile Version 3.0
p
ASCII
DATASET STRUCTURED_POINTS
DIMENSIONS 1 1 1
ORIGIN 0 0 0
SPACING 1 1 1
POINT_DATA 1
SCALARS s short
LOOKUP_TABLE default
4
";

// A hub of nine entries that keeps one part.
fn begin(alloc: Global) -> Result<(Hub, Pass), AllocError>
    ensures pass { IfOk result (λ r. r.1.turn ≡ r.0) }
{
    Hub::start(alloc, 9, 1)
}

fn source(node: Word) -> Edit {
    Edit::Add {
        kind: Kind::File,
        node,
    }
}

fn smooth(node: Word) -> Edit {
    Edit::Add {
        kind: Kind::Smooth,
        node,
    }
}

fn connection(from: Word, to: Word) -> Edit {
    Edit::Connect { from, to, port: 1 }
}

fn load(alloc: Global, node: Word) -> Result<Edit, Fail> {
    let bytes = Bytes::new(POINT.as_bytes().to_vec(alloc)?);
    Ok(Edit::Load {
        node,
        file: Shared::new(alloc, bytes)?,
    })
}

fn done<R: Wait + Abort>(rt: &R, hub: &Hub, pass: Pass, edit: Edit) -> Pass
    requires belongs { pass.turn ≡ hub.now }
    ensures pass { result.turn ≡ hub.now }
{
    let mut pass = pass;
    let answer = hub.edit(rt, &mut pass, Batch::one(edit));
    assert!(rt; matches!(answer, EditAnswer::Done { .. }), "{answer:?}");
    pass
}

// The node of the only part that a pin hands out.
fn only_node<R: Wait>(rt: &R, alloc: Global, hub: &Hub, pass: Pass) -> Option<NodeId>
    requires belongs { pass.turn ≡ hub.now }
{
    let Ok(pin) = hub.pin(rt, alloc, pass) else {
        return None;
    };
    match pin.pinned().entries.list() {
        [entry] => Some(entry.key.node),
        _ => None,
    }
}

#[test]
fn a_hub_of_one_part_keeps_the_last(rt: HostRuntime) -> Result<(), Fail> {
    let s = Word::new(b"s").ok_or("no name")?;
    let t = Word::new(b"t").ok_or("no name")?;
    let shape = Shape {
        pieces: 1,
        workers: 1,
    };
    let (hub, root) = begin(rt.alloc())?;
    let root = done(&rt, &hub, root, source(s));
    let root = done(&rt, &hub, root, smooth(t));
    let root = done(&rt, &hub, root, load(rt.alloc(), s)?);
    let root = done(&rt, &hub, root, connection(s, t));
    // a task for each node, that of the source first
    let Some((root, kept)) = publish_update(&rt, rt.alloc(), &hub, root, NodeId(2), &shape) else {
        return Err("no parts")?;
    };
    assert_eq!(rt; (kept.kept, kept.stale, kept.unkept), (2, 0, 0));
    let last = only_node(&rt, rt.alloc(), &hub, root);
    assert_eq!(rt; last, Some(NodeId(2)));
    Ok(())
}

// A hub of nine entries that keeps two parts.
fn begin_two(alloc: Global) -> Result<(Hub, Pass), AllocError>
    ensures pass { IfOk result (λ r. r.1.turn ≡ r.0) }
{
    Hub::start(alloc, 9, 2)
}

// The nodes of the only two parts that a pin hands out.
fn two_nodes<R: Wait>(rt: &R, alloc: Global, hub: &Hub, pass: Pass) -> Option<(NodeId, NodeId)>
    requires belongs { pass.turn ≡ hub.now }
{
    let Ok(pin) = hub.pin(rt, alloc, pass) else {
        return None;
    };
    match pin.pinned().entries.list() {
        [first, second] => Some((first.key.node, second.key.node)),
        _ => None,
    }
}

// Publishes updates of three nodes, one after the other.
fn publish_three<R: Threads + Wait + Sync>(
    rt: &R,
    alloc: Global,
    hub: &Hub,
    pass: Pass,
    shape: &Shape,
) -> Option<Pass>
    requires belongs { pass.turn ≡ hub.now }
    ensures pass { IfSome result (λ p. p.turn ≡ hub.now) }
{
    let (pass, _) = publish_update(rt, alloc, hub, pass, NodeId(1), shape)?;
    let (pass, _) = publish_update(rt, alloc, hub, pass, NodeId(2), shape)?;
    let (pass, _) = publish_update(rt, alloc, hub, pass, NodeId(3), shape)?;
    Some(pass)
}

#[test]
fn a_used_part_outlasts_one_that_was_kept_later(rt: HostRuntime) -> Result<(), Fail> {
    let s = Word::new(b"s").ok_or("no name")?;
    let t = Word::new(b"t").ok_or("no name")?;
    let u = Word::new(b"u").ok_or("no name")?;
    let shape = Shape {
        pieces: 1,
        workers: 1,
    };
    let (hub, root) = begin_two(rt.alloc())?;
    let root = done(&rt, &hub, root, source(s));
    let root = done(&rt, &hub, root, source(t));
    let root = done(&rt, &hub, root, smooth(u));
    let root = done(&rt, &hub, root, load(rt.alloc(), s)?);
    let root = done(&rt, &hub, root, load(rt.alloc(), t)?);
    let root = done(&rt, &hub, root, connection(s, u));
    // the last one uses the part of the first
    let Some(root) = publish_three(&rt, rt.alloc(), &hub, root, &shape) else {
        return Err("no parts")?;
    };
    let left = two_nodes(&rt, rt.alloc(), &hub, root);
    assert_eq!(rt; left, Some((NodeId(3), NodeId(1))));
    Ok(())
}
