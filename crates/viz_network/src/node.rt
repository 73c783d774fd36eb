//! One node of a network.

ghost use Rattle.std.specs.Prelude.{◌≡◌, IfOk};
ghost use Rattle.viz_network.specs.Readers.{input_at, value_at};

use std::alloc::AllocError;
use viz_base::{Bytes, NodeId, Shared};
use viz_kinds::{Param, Settings, Value};

/// A node without its name.
#[derive(Debug, Drop)]
pub struct Node {
    /// The position of its Add.
    pub id: NodeId,
    /// Its kind, and the parameters that the kind has.
    pub settings: Settings,
    /// The parameter release: whether its parts are given up after an update.
    pub release: bool,
    /// What feeds each port, port 1 first; the places past the kind's ports are empty.
    pub inputs: [Option<NodeId>; 8],
    /// The file that was loaded.
    pub file: Option<Shared<Bytes>>,
    /// The position of the edit that last stamped it.
    pub stamp: u32,
}

impl Node {
    /// What feeds the port; None also where the kind has no such port.
    pub fn input(&self, port: u8) -> Option<NodeId>
        ensures value { result ≡ input_at port self.now }
    {
        if self.settings.kind().has_port(port) {
            self.inputs[port as usize - 1]
        } else {
            None
        }
    }

    /// The value of the parameter; None where the kind hasn't it.
    pub fn value(&self, param: Param) -> Option<Value>
        ensures value { result ≡ value_at param self.now }
    {
        self.settings.value(self.release, param)
    }
}

fn copy_file(file: &Option<Shared<Bytes>>) -> Result<Option<Shared<Bytes>>, AllocError>
    ensures { IfOk result (λ copy. copy ≡ file.now) }
{
    match file {
        Some(file) => Ok(Some(file.copy()?)),
        None => Ok(None),
    }
}

impl Clone for Node {
    ghost is_clone = { λ node copy. copy ≡ node };

    fn clone(&self) -> Result<Node, AllocError> {
        let file = copy_file(&self.file)?;
        Ok(Node {
            id: self.id,
            settings: self.settings,
            release: self.release,
            inputs: self.inputs,
            file,
            stamp: self.stamp,
        })
    }
}
