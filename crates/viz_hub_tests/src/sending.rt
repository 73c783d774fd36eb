//! What a pass tells of its publications, and what becomes of a part.

ghost use Rattle.std.specs.Prelude.{◌≡◌, IfSome};

use crate::passes::{begin, join, pin, release, split, wants, word};
use crate::publish_update;
use crate::publishing::{produced_in, publish_produced};
use std::alloc::Global;
use std::sync::Wait;
use std::test::Fail;
use viz_base::{Bytes, NodeId, Shape, Shared, Word};
use viz_history::{EditAnswer, Pinned};
use viz_hub::{Hub, Pass, Sent};
use viz_kinds::Kind;
use viz_network::Edit;
use viz_stored::stored_whole;

// An image of one point.
const POINT: &str = "# vtk DataFile Version 3.0
p
ASCII
DATASET STRUCTURED_POINTS
DIMENSIONS 1 1 1
ORIGIN 0 0 0
SPACING 1 1 1
POINT_DATA 1
SCALARS s short
LOOKUP_TABLE default
4
";

fn source(node: Word) -> Edit {
    Edit::Add {
        kind: Kind::File,
        node,
    }
}

fn load(alloc: Global, node: Word) -> Result<Edit, Fail> {
    let bytes = Bytes::new(POINT.as_bytes().to_vec(alloc)?);
    Ok(Edit::Load {
        node,
        file: Shared::new(alloc, bytes)?,
    })
}

fn told(pass: &Pass) -> (u64, Option<Sent>) {
    (pass.sent(), pass.last())
}

// Whether the only kept part of a pin has the key under which all that the node gives is stored.
fn is_only(alloc: Global, pinned: &Pinned, node: NodeId) -> bool {
    if pinned.net.node(node).is_none() {
        return false;
    }
    let [entry] = pinned.entries.list() else {
        return false;
    };
    match stored_whole(alloc, &pinned.net, node) {
        Ok(item) => item.key == entry.key,
        Err(_) => false,
    }
}

// Pins, looks whether the only kept part is that of the node, and gives the pass back.
fn finds<R: Wait>(
    rt: &R,
    alloc: Global,
    hub: &Hub,
    pass: Pass,
    node: NodeId,
) -> Option<(Pass, bool)>
    requires belongs { pass.turn ≡ hub.now }
    ensures pass { IfSome result (λ r. r.0.turn ≡ hub.now) }
{
    let pin = pin(rt, alloc, hub, pass)?;
    let found = is_only(alloc, pin.pinned(), node);
    Some((release(hub, pin), found))
}

#[test]
fn a_pass_tells_how_often_it_published_and_what_last(rt: HostRuntime) -> Result<(), Fail> {
    let s = word("s")?;
    let shape = Shape {
        pieces: 2,
        workers: 3,
    };
    let whole = Shape {
        pieces: 1,
        workers: 1,
    };
    let (hub, root) = begin(rt.alloc(), 9)?;
    assert_eq!(rt; told(&root), (0, None));
    let root = wants(&rt, &hub, root, source(s), EditAnswer::Done { at: 1 });
    let root = wants(
        &rt,
        &hub,
        root,
        load(rt.alloc(), s)?,
        EditAnswer::Done { at: 2 },
    );
    // the part of its one task
    let Some((root, kept)) = publish_update(&rt, rt.alloc(), &hub, root, NodeId(1), &shape) else {
        return Err("no part")?;
    };
    assert_eq!(rt; (kept.kept, kept.stale, kept.unkept), (1, 0, 0));
    let first = Sent {
        at: 2,
        sink: NodeId(1),
        shape,
    };
    assert_eq!(rt; told(&root), (1, Some(first)));
    // the new pass of a split published nothing
    let (root, other) = split(&rt, &hub, root);
    assert_eq!(rt; told(&root), (1, Some(first)));
    assert_eq!(rt; told(&other), (0, None));
    // another pass finds the part, so that it makes none
    let Some((other, true)) = finds(&rt, rt.alloc(), &hub, other, NodeId(1)) else {
        return Err("another part")?;
    };
    let Some((other, kept)) = publish_update(&rt, rt.alloc(), &hub, other, NodeId(1), &whole) else {
        return Err("no update")?;
    };
    assert_eq!(rt; (kept.kept, kept.stale, kept.unkept), (0, 0, 0));
    let second = Sent {
        at: 2,
        sink: NodeId(1),
        shape: whole,
    };
    assert_eq!(rt; told(&other), (1, Some(second)));
    // a join keeps what the first published
    let root = join(&hub, root, other);
    assert_eq!(rt; told(&root), (1, Some(first)));
    Ok(())
}

#[test]
fn a_part_is_stale_once_its_node_was_loaded_anew(rt: HostRuntime) -> Result<(), Fail> {
    let s = word("s")?;
    let shape = Shape {
        pieces: 1,
        workers: 1,
    };
    let (hub, root) = begin(rt.alloc(), 9)?;
    let root = wants(&rt, &hub, root, source(s), EditAnswer::Done { at: 1 });
    let root = wants(
        &rt,
        &hub,
        root,
        load(rt.alloc(), s)?,
        EditAnswer::Done { at: 2 },
    );
    let (mine, its) = split(&rt, &hub, root);
    let Some(pinned) = pin(&rt, rt.alloc(), &hub, mine) else {
        return Err("out of memory")?;
    };
    let Some(produced) = produced_in(&rt, rt.alloc(), &pinned, NodeId(1), &shape) else {
        return Err("no part")?;
    };
    let its = wants(
        &rt,
        &hub,
        its,
        load(rt.alloc(), s)?,
        EditAnswer::Done { at: 3 },
    );
    let Some((mine, kept)) = publish_produced(
        &rt,
        rt.alloc(),
        &hub,
        pinned,
        NodeId(1),
        &shape,
        produced,
    ) else {
        return Err("out of memory")?;
    };
    assert_eq!(rt; (kept.kept, kept.stale, kept.unkept), (0, 1, 0));
    assert_eq!(rt; (mine.sent(), its.sent()), (1, 0));
    Ok(())
}
