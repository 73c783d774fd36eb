//! The two nodes of the fixed history: a source, and the filter behind it.

ghost use Rattle.std.specs.Prelude.{◌≡◌, IfOk};
ghost use Rattle.viz_once.specs.FixedHistory.{HasNumbers, name_at};
ghost use Rattle.viz_once.specs.Steps.Nodes.{settings_of, source_node, op_node};

use crate::command::NodeFilter;
use std::alloc::{AllocError, Global};
use viz_base::{Bytes, NodeId, Pick, Shared, Word};
use viz_kinds::Settings;
use viz_network::Node;

/// The source: its Add is the first edit.
pub const SOURCE: NodeId = NodeId(1);

/// The filter's node: its Add is the third edit.
pub const OP: NodeId = NodeId(3);

/// The parameters of the filter's node.
pub fn settings_of(filter: &NodeFilter) -> Settings
    ensures value { result ≡ settings_of filter.now }
    ensures numbers { HasNumbers filter.now }
{
    match filter {
        NodeFilter::Threshold { lo, hi } => Settings::Threshold { lo: *lo, hi: *hi },
        NodeFilter::Contour { level } => Settings::Contour {
            count: 1,
            levels: [*level, 0, 0, 0, 0, 0, 0, 0],
        },
    }
}

/// The source, which the bytes are loaded into.
pub fn source_node(alloc: Global, bytes: Bytes) -> Result<Node, AllocError>
    ensures { IfOk result (λ node. node ≡ source_node bytes) }
{
    let file = Shared::new(alloc, bytes)?;
    Ok(Node {
        id: SOURCE,
        settings: Settings::File {
            array: Pick::First,
            unit: 0,
        },
        release: false,
        inputs: [None; 8],
        file: Some(file),
        stamp: 2,
    })
}

/// The filter's node, which the source feeds.
pub fn op_node(filter: &NodeFilter) -> Node
    ensures value { result ≡ op_node filter.now }
    ensures numbers { HasNumbers filter.now }
{
    Node {
        id: OP,
        settings: settings_of(filter),
        release: false,
        inputs: [Some(SOURCE), None, None, None, None, None, None, None],
        file: None,
        stamp: 5,
    }
}

/// The name of one of both.
pub fn name_at(node: NodeId) -> Word
    ensures { result ≡ name_at node.0 }
{
    if node.0 == 1 {
        Word::new(b"src").unwrap()
    } else {
        Word::new(b"op").unwrap()
    }
}
