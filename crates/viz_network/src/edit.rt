//! Edits of a network.

use viz_base::{Bytes, Shared, Word};
use viz_kinds::{Kind, Param, Value};

/// A change of a network. Nodes go by their names, ports by their numbers from 1.
#[derive(Debug, Drop)]
pub enum Edit {
    /// A new node, with empty ports, the defaults of its kind and no file.
    Add {
        kind: Kind,
        node: Word,
    },
    /// Takes a node out.
    Remove {
        node: Word,
    },
    /// Connects a port of `to`, and replaces what fed it.
    Connect {
        from: Word,
        to: Word,
        port: u8,
    },
    /// Empties a port of `to`.
    Disconnect {
        to: Word,
        port: u8,
    },
    /// Gives a parameter a value.
    Set {
        node: Word,
        param: Param,
        value: Value,
    },
    /// Gives a file node its bytes.
    Load {
        node: Word,
        file: Shared<Bytes>,
    },
}
