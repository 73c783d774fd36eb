//! An order of nodes, with those that lie downstream of one moved behind all others.

ghost use Rattle.std.specs.Prelude.{◌≡◌, ◌+◌, ◌<◌, ◌≤◌, ◌++◌, ◌∷◌, [], filter, take, length, not};
ghost use Rattle.viz_network.specs.EqualStamps.{IsAscending};
ghost use Rattle.viz_network.specs.Steps.Order.{parted};
ghost use Rattle.viz_network.specs.Steps.Marks.{is_marked, is_kept};

use crate::nodes::{Guesses, Nodes};
use crate::sweep::mark_of;
use viz_base::NodeId;

// Writes the node behind the first so many, if it is one of the late ones, or of the others.
fn keep_one(
    nodes: &Nodes,
    guesses: &Guesses,
    marks: &[bool; 256],
    id: NodeId,
    late: bool,
    count: usize,
    kept: &mut [NodeId],
) -> usize
    requires ascending { IsAscending nodes.now.entries }
    requires few { length nodes.now.entries ≤ 256 }
    requires room { count < length kept.old }
    ensures value { take result kept.new ≡ take count kept.old
        ++ filter (is_kept late nodes.now.entries marks.now) (id ∷ []) }
    ensures within { result ≤ count + 1 }
{
    if mark_of(nodes, guesses, marks, id) != late {
        return count;
    }
    kept[count] = id;
    count + 1
}

// Writes the late nodes of the order behind the first so many, or the others.
fn keep(
    nodes: &Nodes,
    guesses: &Guesses,
    marks: &[bool; 256],
    order: &[NodeId],
    late: bool,
    at: usize,
    kept: &mut [NodeId],
) -> usize
    requires ascending { IsAscending nodes.now.entries }
    requires few { length nodes.now.entries ≤ 256 }
    requires room { at + length order.now ≤ length kept.old }
    ensures value { take result kept.new ≡ take at kept.old
        ++ filter (is_kept late nodes.now.entries marks.now) order.now }
    ensures within { result ≤ at + length order.now }
{
    let mut count = at;
    for id in order {
        count = keep_one(nodes, guesses, marks, *id, late, count, kept);
    }
    count
}

/// Moves the nodes with a mark behind all others.
pub fn part(nodes: &Nodes, guesses: &Guesses, marks: &[bool; 256], order: &mut [NodeId])
    requires ascending { IsAscending nodes.now.entries }
    requires few { length nodes.now.entries ≤ 256 }
    requires short { length order.old ≤ 256 }
    ensures { order.new ≡ parted (is_marked nodes.now.entries marks.now) order.old }
{
    let mut kept = [NodeId(0); 512];
    let early = keep(nodes, guesses, marks, order, false, 0, &mut kept);
    let all = keep(nodes, guesses, marks, order, true, early, &mut kept);
    order.copy_from_slice(&kept[..all]);
}
