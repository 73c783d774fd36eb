//! The network.

ghost use Rattle.std.specs.Prelude.{◌≡◌, [], IfOk, Some, Err};
ghost use Rattle.std.specs.Option.{option_copied, option_map, option_and_then};
ghost use Rattle.viz_network.specs.Network.{named, node_of, name_of};
ghost use Rattle.viz_network.specs.Readers.{kind_at, input_at, value_at};
ghost use Rattle.viz_network.specs.Cone.{stamp_of};
ghost use Rattle.viz_network.specs.Edits.{apply};
ghost use Rattle.viz_network.specs.Applies.{Applies, IsPast, MayTakeMemory};
ghost use Rattle.viz_network.specs.Step.{AreSteps};

use crate::changes::{add, connect, disconnect, load, remove, set};
use crate::edit::Edit;
use crate::node::Node;
use crate::nodes::{Nodes, name_at, node_at, node_named};
use crate::refusal::ApplyStop;
use crate::stamps::{Stamps, stamps_in};
use crate::steps::{Step, steps_in};
use crate::sweep::stamp_in;
use indexmap::IndexMap;
use std::alloc::{AllocError, Global};
use std::marker::Model;
use viz_base::{Bytes, NodeId, Word};
use viz_kinds::{Kind, Param, Value};

/// Nodes with their names and connections, without a cycle. Contracts see the nodes in the order of
/// their Adds, with their names.
#[derive(Drop)]
pub struct Net {
    nodes: Nodes,
    // All nodes, each behind what feeds it.
    order: Vec<NodeId>,
}

impl Model for Net {
    ghost use Rattle.viz_network.specs.Network.{Network};
    ghost use Rattle.viz_network.specs.Steps.Order.{IsOrder};

    ghost Value = { Network };

    ghost view = { λ net. net.nodes.entries };

    ghost invariant = { λ net. IsOrder net.nodes.entries net.order.items };
}

fn copy_nodes(nodes: &Nodes) -> Result<Nodes, AllocError>
    ensures { IfOk result (λ copy. copy.entries ≡ nodes.now.entries) }
{
    nodes.clone()
}

fn copy_order(order: &Vec<NodeId>) -> Result<Vec<NodeId>, AllocError>
    ensures { IfOk result (λ copy. copy.items ≡ order.now.items) }
{
    order.clone()
}

impl Net {
    /// A network without nodes.
    pub fn new(alloc: Global) -> Net
        ensures value { result ≡ [] }
    {
        Net {
            nodes: IndexMap::new(alloc),
            order: Vec::new(alloc),
        }
    }

    /// The same network. The bytes of its files aren't copied.
    pub fn copy(&self) -> Result<Net, AllocError>
        ensures value { IfOk result (λ net. net ≡ self.now) }
    {
        let nodes = copy_nodes(&self.nodes)?;
        let order = copy_order(&self.order)?;
        Ok(Net { nodes, order })
    }

    /// Makes the edit at this position of the history, which is past all that were used before.
    /// An edit that isn't made changes nothing.
    ///
    /// # Errors
    ///
    /// The refusals of docs/FORMATS-OF-SCRIPTS.md, "Edits", in their order; then want of memory,
    /// which only an Add and a Load can meet.
    pub fn apply(&mut self, at: u32, edit: &Edit) -> Result<(), ApplyStop>
        requires later { IsPast at self.old }
        ensures applies { Applies result self.old self.new (apply at edit.now self.old) }
        ensures memory { result ≡ Err ApplyStop.Memory → MayTakeMemory edit.now }
    {
        match edit {
            Edit::Add { kind, node } => add(&mut self.nodes, &mut self.order, at, *kind, node),
            Edit::Remove { node } => Ok(remove(&mut self.nodes, &mut self.order, at, node)?),
            Edit::Connect { from, to, port } => {
                Ok(connect(&mut self.nodes, &mut self.order, at, from, to, *port)?)
            }
            Edit::Disconnect { to, port } => {
                Ok(disconnect(&mut self.nodes, &self.order, at, to, *port)?)
            }
            Edit::Set { node, param, value } => {
                Ok(set(&mut self.nodes, &self.order, at, node, *param, value)?)
            }
            Edit::Load { node, file } => load(&mut self.nodes, &self.order, at, node, file),
        }
    }

    /// The node of this name.
    pub fn find(&self, node: &Word) -> Option<NodeId>
        ensures value { result ≡ option_map (λ n. n.id) (named self.now node.now) }
    {
        let node = node_named(&self.nodes, node)?;
        Some(node.id)
    }

    /// The node, with its settings, what feeds it, its file and its own stamp.
    pub fn node(&self, node: NodeId) -> Option<&Node>
        ensures value { option_copied result ≡ node_of self.now node.0 }
    {
        node_at(&self.nodes, node)
    }

    /// The name of the node.
    pub fn name(&self, node: NodeId) -> Option<Word>
        ensures value { result ≡ name_of self.now node.0 }
    {
        let name = name_at(&self.nodes, node)?;
        Some(*name)
    }

    /// The kind of the node.
    pub fn kind(&self, node: NodeId) -> Option<Kind>
        ensures value { result ≡ option_map kind_at (node_of self.now node.0) }
    {
        let node = node_at(&self.nodes, node)?;
        Some(node.settings.kind())
    }

    /// What feeds the port; None also where the kind has no such port or the port is empty.
    pub fn input(&self, node: NodeId, port: u8) -> Option<NodeId>
        ensures value { result ≡ option_and_then (input_at port) (node_of self.now node.0) }
    {
        let node = node_at(&self.nodes, node)?;
        node.input(port)
    }

    /// The value of the parameter; None also where the kind hasn't it.
    pub fn value(&self, node: NodeId, param: Param) -> Option<Value>
        ensures value { result ≡ option_and_then (value_at param) (node_of self.now node.0) }
    {
        let node = node_at(&self.nodes, node)?;
        node.value(param)
    }

    /// The file that was loaded; None also where nothing is loaded.
    pub fn file(&self, node: NodeId) -> Option<&Bytes>
        ensures value { option_copied result ≡ option_and_then (λ n. n.file) (node_of self.now node.0) }
    {
        let node = node_at(&self.nodes, node)?;
        match &node.file {
            Some(file) => Some(file.get()),
            None => None,
        }
    }

    /// The greatest position that stamped a node of the cone. It takes no memory.
    pub fn stamp(&self, node: NodeId) -> Option<u32>
        ensures value { result ≡ stamp_of self.now node.0 }
    {
        if node_at(&self.nodes, node).is_none() {
            return None;
        }
        Some(stamp_in(&self.nodes, &self.order, node))
    }

    /// The stamps of all nodes, for who asks for many: they cost as much as one. It takes no
    /// memory.
    pub fn stamps(&self) -> Stamps<'_>
        ensures value { result ≡ self.now }
    {
        stamps_in(&self.nodes, &self.order)
    }

    /// A step for each node, each behind what feeds it.
    pub fn steps(&self, alloc: Global) -> Result<Vec<Step>, AllocError>
        ensures value { IfOk result (λ steps. AreSteps self.now steps.items) }
    {
        steps_in(alloc, &self.nodes, &self.order)
    }
}
