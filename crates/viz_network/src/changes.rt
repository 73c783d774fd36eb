//! The edits, on the nodes and on an order in which each node stands behind what feeds it.

ghost use Rattle.std.specs.Prelude.{◌≡◌, ◌++◌, ◌∷◌, [], OnOk, OnErr, None, Some, not, filter};
ghost use Rattle.std.specs.Prelude.{nat_eq};
ghost use Rattle.viz_network.specs.Network.{named, without};
ghost use Rattle.viz_network.specs.Edits.{apply, fresh, is_file as loadable};
ghost use Rattle.viz_network.specs.Applies.{Applies, Decides, IsPast};
ghost use Rattle.viz_network.specs.Steps.Order.{IsOrder};
ghost use Rattle.viz_network.specs.declared.edit.Edit.{Edit as Wanted};

use crate::node::Node;
use crate::nodes::{Nodes, feeds_another, node_named, put_connection, put_file, put_value};
use crate::refusal::{ApplyStop, Refusal};
use crate::way::make_way;
use std::alloc::AllocError;
use viz_base::{Bytes, NODES, NodeId, Shared, Word};
use viz_kinds::{Kind, Param, Settings, Value, allows};

fn new_node(at: u32, kind: Kind) -> Node
    ensures { result ≡ fresh at kind }
{
    Node {
        id: NodeId(at),
        settings: Settings::new(kind),
        release: false,
        inputs: [None; 8],
        file: None,
        stamp: at,
    }
}

fn put_node(nodes: &mut Nodes, name: &Word, node: Node) -> Result<(), AllocError>
    requires { named nodes.old.entries name.now ≡ None }
    ensures ok { OnOk result (nodes.new.entries ≡ nodes.old.entries ++ (name.now, node) ∷ []) }
    ensures err { OnErr result (nodes.new.entries ≡ nodes.old.entries) }
{
    match nodes.insert(*name, node) {
        Ok(_) => Ok(()),
        Err(_) => Err(AllocError),
    }
}

/// Puts a new node last.
pub fn add(
    nodes: &mut Nodes,
    order: &mut Vec<NodeId>,
    at: u32,
    kind: Kind,
    name: &Word,
) -> Result<(), ApplyStop>
    requires order { IsOrder nodes.old.entries order.old.items }
    requires past { IsPast at nodes.old.entries }
    ensures applies { Applies result nodes.old.entries nodes.new.entries
        (apply at (Wanted.Add kind name.now) nodes.old.entries) }
    ensures order { IsOrder nodes.new.entries order.new.items }
{
    if node_named(nodes, name).is_some() {
        return Err(ApplyStop::Refused(Refusal::Exists));
    }
    if NODES as usize <= nodes.len() {
        return Err(ApplyStop::Refused(Refusal::TooManyNodes));
    }
    order.reserve(1)?;
    put_node(nodes, name, new_node(at, kind))?;
    order.push_reserved(NodeId(at));
    Ok(())
}

fn take_out(nodes: &mut Nodes, name: &Word)
    ensures { nodes.new.entries ≡ without nodes.old.entries name.now }
{
    let _node = nodes.shift_remove(name);
}

fn forget(order: &mut Vec<NodeId>, id: NodeId)
    ensures { order.new.items ≡ filter (λ x. not (nat_eq id.0 x.0)) order.old.items }
{
    order.retain(|x| id.0 != x.0);
}

/// Takes a node out that feeds no other.
pub fn remove(
    nodes: &mut Nodes,
    order: &mut Vec<NodeId>,
    at: u32,
    name: &Word,
) -> Result<(), Refusal>
    requires { IsOrder nodes.old.entries order.old.items }
    ensures applies { Decides result nodes.old.entries nodes.new.entries
        (apply at (Wanted.Remove name.now) nodes.old.entries) }
    ensures order { IsOrder nodes.new.entries order.new.items }
{
    let Some(node) = node_named(nodes, name) else {
        return Err(Refusal::Unknown);
    };
    let id = node.id;
    if feeds_another(nodes, id) {
        return Err(Refusal::InUse);
    }
    take_out(nodes, name);
    forget(order, id);
    Ok(())
}

/// Connects two nodes. It takes no memory.
pub fn connect(
    nodes: &mut Nodes,
    order: &mut Vec<NodeId>,
    at: u32,
    from: &Word,
    to: &Word,
    port: u8,
) -> Result<(), Refusal>
    requires { IsOrder nodes.old.entries order.old.items }
    ensures applies { Decides result nodes.old.entries nodes.new.entries
        (apply at (Wanted.Connect from.now to.now port) nodes.old.entries) }
    ensures order { IsOrder nodes.new.entries order.new.items }
{
    let Some(source) = node_named(nodes, from) else {
        return Err(Refusal::Unknown);
    };
    let source = source.id;
    let Some(target) = node_named(nodes, to) else {
        return Err(Refusal::Unknown);
    };
    if !target.settings.kind().has_port(port) {
        return Err(Refusal::NoPort);
    }
    let target = target.id;
    if !make_way(nodes, order, source, target) {
        return Err(Refusal::WouldCycle);
    }
    put_connection(nodes, to, at, port, Some(source));
    Ok(())
}

/// Empties a port.
pub fn disconnect(
    nodes: &mut Nodes,
    order: &[NodeId],
    at: u32,
    to: &Word,
    port: u8,
) -> Result<(), Refusal>
    requires { IsOrder nodes.old.entries order.now }
    ensures applies { Decides result nodes.old.entries nodes.new.entries
        (apply at (Wanted.Disconnect to.now port) nodes.old.entries) }
    ensures order { IsOrder nodes.new.entries order.now }
{
    let Some(target) = node_named(nodes, to) else {
        return Err(Refusal::Unknown);
    };
    if !target.settings.kind().has_port(port) {
        return Err(Refusal::NoPort);
    }
    put_connection(nodes, to, at, port, None);
    Ok(())
}

/// Gives a parameter a value.
pub fn set(
    nodes: &mut Nodes,
    order: &[NodeId],
    at: u32,
    name: &Word,
    param: Param,
    value: &Value,
) -> Result<(), Refusal>
    requires { IsOrder nodes.old.entries order.now }
    ensures applies { Decides result nodes.old.entries nodes.new.entries
        (apply at (Wanted.Set name.now param value.now) nodes.old.entries) }
    ensures order { IsOrder nodes.new.entries order.now }
{
    let Some(node) = node_named(nodes, name) else {
        return Err(Refusal::Unknown);
    };
    if !node.settings.kind().has(param) {
        return Err(Refusal::NoParam);
    }
    if !allows(param, value) {
        return Err(Refusal::BadValue);
    }
    put_value(nodes, name, at, param, value);
    Ok(())
}

fn is_file(kind: Kind) -> bool
    ensures { result ≡ loadable kind }
{
    matches!(kind, Kind::File)
}

/// Gives a file node its bytes.
pub fn load(
    nodes: &mut Nodes,
    order: &[NodeId],
    at: u32,
    name: &Word,
    file: &Shared<Bytes>,
) -> Result<(), ApplyStop>
    requires { IsOrder nodes.old.entries order.now }
    ensures applies { Applies result nodes.old.entries nodes.new.entries
        (apply at (Wanted.Load name.now file.now) nodes.old.entries) }
    ensures order { IsOrder nodes.new.entries order.now }
{
    let Some(node) = node_named(nodes, name) else {
        return Err(ApplyStop::Refused(Refusal::Unknown));
    };
    if !is_file(node.settings.kind()) {
        return Err(ApplyStop::Refused(Refusal::NoParam));
    }
    let file = file.copy()?;
    put_file(nodes, name, at, file);
    Ok(())
}
