//! Nodes by their names and by their ranks.

ghost use Rattle.std.specs.Prelude.{◌≡◌, ◌≤◌, ◌<◌, ◌++◌, ◌∷◌, [], OnOk, OnErr, IfSome, length};
ghost use Rattle.std.specs.Prelude.{slice_get, Some, None, false};
ghost use Rattle.std.specs.Option.{option_copied};
ghost use Rattle.viz_network.specs.Network.{named, node_of, name_of, change, without};
ghost use Rattle.viz_network.specs.Edits.{connected, valued, loaded, is_used, is_input};
ghost use Rattle.viz_network.specs.EqualStamps.{IsAscending};
ghost use Rattle.viz_network.specs.Steps.Order.{rank_of as ranked};

use crate::node::Node;
use indexmap::IndexMap;
use viz_base::{Bytes, NodeId, Shared, Word};
use viz_kinds::{Param, Value, release_with};

/// The nodes of a network by their names, in the order of their Adds.
pub type Nodes = IndexMap<Word, Node>;

/// The node of this name.
pub fn node_named<'a>(nodes: &'a Nodes, name: &Word) -> Option<&'a Node>
    ensures { option_copied result ≡ named nodes.now.entries name.now }
{
    nodes.get(name)
}

/// The rank of the node with this position of its Add.
pub fn rank_of(nodes: &Nodes, id: NodeId) -> Option<usize>
    requires { IsAscending nodes.now.entries }
    ensures value { result ≡ ranked nodes.now.entries id.0 }
    ensures within { IfSome result (λ rank. rank < length nodes.now.entries) }
{
    nodes.binary_search_by_key(&id.0, |_, node| node.id.0).ok()
}

/// For each rest of a position by 4096, a rank at which its node may stand.
pub type Guesses = [u8; 4096];

/// Puts a guess for each node into the table. A wrong guess costs a search, so nothing is promised
/// of it; in a history of at most 4096 entries no two positions share a rest, and no guess is
/// wrong.
pub fn guess_all(nodes: &Nodes, guesses: &mut Guesses)
    requires { length nodes.now.entries ≤ 256 }
{
    for rank in 0..nodes.len() {
        guesses[nodes[rank].id.0 as usize % 4096] = rank as u8;
    }
}

/// The rank of the node with this position of its Add, at once where the guess is right.
pub fn guessed_rank(nodes: &Nodes, guesses: &Guesses, id: NodeId) -> Option<usize>
    requires { IsAscending nodes.now.entries }
    ensures value { result ≡ ranked nodes.now.entries id.0 }
    ensures within { IfSome result (λ rank. rank < length nodes.now.entries) }
{
    let rank = guesses[id.0 as usize % 4096] as usize;
    if rank < nodes.len() && nodes[rank].id == id {
        return Some(rank);
    }
    rank_of(nodes, id)
}

/// The node with this position of its Add.
pub fn node_at(nodes: &Nodes, id: NodeId) -> Option<&Node>
    requires { IsAscending nodes.now.entries }
    ensures { option_copied result ≡ node_of nodes.now.entries id.0 }
{
    let rank = rank_of(nodes, id)?;
    let (_, node) = nodes.get_index(rank)?;
    Some(node)
}

/// The name of the node with this position of its Add.
pub fn name_at(nodes: &Nodes, id: NodeId) -> Option<&Word>
    requires { IsAscending nodes.now.entries }
    ensures { option_copied result ≡ name_of nodes.now.entries id.0 }
{
    let rank = rank_of(nodes, id)?;
    let (name, _) = nodes.get_index(rank)?;
    Some(name)
}

fn is_from(input: &Option<NodeId>, id: NodeId) -> bool
    ensures { result ≡ is_input id.0 (input.now ∷ []) }
{
    match input {
        Some(from) => id == *from,
        None => false,
    }
}

fn is_input_of(id: NodeId, inputs: &[Option<NodeId>]) -> bool
    ensures { result ≡ is_input id.0 inputs.now }
{
    for input in inputs {
        if is_from(input, id) {
            return true;
        }
    }
    false
}

/// Whether some port is connected to the node.
pub fn feeds_another(nodes: &Nodes, id: NodeId) -> bool
    ensures { result ≡ is_used id.0 nodes.now.entries }
{
    for rank in 0..nodes.len() {
        if is_input_of(id, &nodes[rank].inputs) {
            return true;
        }
    }
    false
}

/// Connects a port of the node of this name, or empties it.
pub fn put_connection(nodes: &mut Nodes, name: &Word, at: u32, port: u8, from: Option<NodeId>)
    requires first { 1 ≤ port }
    requires last { port ≤ 8 }
    ensures { nodes.new.entries ≡ change (connected at port from) nodes.old.entries name.now }
{
    let Some(rank) = nodes.get_index_of(name) else {
        return;
    };
    let node = &mut nodes[rank];
    node.inputs[port as usize - 1] = from;
    node.stamp = at;
}

/// Puts a file into the node of this name.
pub fn put_file(nodes: &mut Nodes, name: &Word, at: u32, file: Shared<Bytes>)
    ensures { nodes.new.entries ≡ change (loaded at file) nodes.old.entries name.now }
{
    let Some(rank) = nodes.get_index_of(name) else {
        return;
    };
    let node = &mut nodes[rank];
    node.file = Some(file);
    node.stamp = at;
}

/// Puts a value of a parameter into the node of this name.
pub fn put_value(nodes: &mut Nodes, name: &Word, at: u32, param: Param, value: &Value)
    ensures { nodes.new.entries ≡ change (valued at param value.now) nodes.old.entries name.now }
{
    let Some(rank) = nodes.get_index_of(name) else {
        return;
    };
    let node = &mut nodes[rank];
    node.settings = node.settings.with(param, value);
    node.release = release_with(node.release, param, value);
    node.stamp = at;
}
