//! What is told and what is kept, found by nodes.

ghost use Rattle.std.specs.Prelude.{◌≡◌, IfOk, map};
ghost use Rattle.viz_plan_meaning.specs.Known.{is_stamp};
ghost use Rattle.viz_plan.specs.ByNode.{entry_of, extent_shown, is_present_entry, present_in};
ghost use Rattle.viz_plan.specs.ByNode.{shown_of};

use crate::told::extent_of;
use std::alloc::{AllocError, Global};
use viz_base::NodeId;
use viz_buckets::{Buckets, Numbered};
use viz_extent::Extent;
use viz_inform::Told;
use viz_parts::{Key, Request, Stored};

fn number_of(node: NodeId) -> u64
    ensures { result ≡ node.0 }
{
    u64::from(node.0)
}

/// A node and the extent of its image, None of a mesh.
#[derive(Clone, Copy, Debug)]
pub struct Shown {
    pub node: NodeId,
    pub extent: Option<Extent>,
}

impl Numbered for Shown {
    ghost number = { λ shown. shown.node.0 };

    fn number(&self) -> u64 {
        number_of(self.node)
    }
}

/// What a part is kept under.
#[derive(Clone, Copy, Debug)]
pub struct Entry {
    pub key: Key,
}

impl Numbered for Entry {
    ghost number = { λ entry. entry.key.node.0 };

    fn number(&self) -> u64 {
        number_of(self.key.node)
    }
}

/// What is told, found by nodes.
pub fn told_by_node(alloc: Global, told: &[Told]) -> Result<Buckets<Shown>, AllocError>
    ensures { IfOk result (λ all. all ≡ map shown_of told.now) }
{
    let mut all = Buckets::new(alloc, told.len())?;
    for one in told {
        let extent = extent_of(&one.information);
        all.push(Shown {
            node: one.node,
            extent,
        })?;
    }
    Ok(all)
}

/// The keys of what is kept, found by nodes.
pub fn kept_by_node(alloc: Global, entries: &[Stored]) -> Result<Buckets<Entry>, AllocError>
    ensures { IfOk result (λ all. all ≡ map entry_of entries.now) }
{
    let mut all = Buckets::new(alloc, entries.len())?;
    for entry in entries {
        all.push(Entry { key: entry.key })?;
    }
    Ok(all)
}

fn extent_among(shown: &[Shown], node: NodeId) -> Option<Extent>
    ensures { result ≡ extent_shown shown.now node.0 }
{
    for one in shown {
        if one.node == node {
            return one.extent;
        }
    }
    None
}

/// The extent that is told of a node's image; None of a mesh.
pub fn extent_shown(shown: &Buckets<Shown>, node: NodeId) -> Option<Extent>
    ensures { result ≡ extent_shown shown.now node.0 }
{
    extent_among(shown.bucket(number_of(node)), node)
}

fn is_stamp(stamp: &Option<u32>, other: u32) -> bool
    ensures { result ≡ is_stamp stamp.now other }
{
    match stamp {
        Some(stamp) => *stamp == other,
        None => false,
    }
}

fn is_present(stamp: &Option<u32>, node: NodeId, entry: &Entry) -> bool
    ensures { result ≡ is_present_entry stamp.now node.0 entry.now }
{
    entry.key.node == node && is_stamp(stamp, entry.key.stamp)
}

// The requests of those of some entries that are of a node with its stamp.
fn present_among(
    alloc: Global,
    stamp: &Option<u32>,
    node: NodeId,
    entries: &[Entry],
) -> Result<Vec<Request>, AllocError>
    ensures { IfOk result (λ kept. kept.items ≡ present_in stamp.now node.0 entries.now) }
{
    let mut kept = Vec::new(alloc);
    for entry in entries {
        if is_present(stamp, node, entry) {
            kept.push(entry.key.request)?;
        }
    }
    Ok(kept)
}

/// The requests of what is kept of a node with its stamp, in the cache's order.
pub fn present(
    alloc: Global,
    stamp: &Option<u32>,
    node: NodeId,
    entries: &Buckets<Entry>,
) -> Result<Vec<Request>, AllocError>
    ensures { IfOk result (λ kept. kept.items ≡ present_in stamp.now node.0 entries.now) }
{
    let kept = present_among(alloc, stamp, node, entries.bucket(number_of(node)))?;
    Ok(kept)
}
