//! Commands of a line.

use viz_kinds::{Kind, Param};

/// A command, by its word.
#[derive(Clone, Copy, PartialEq, Eq, Debug)]
pub enum Command {
    Add,
    Remove,
    Connect,
    Disconnect,
    Set,
    Load,
    Update,
    Audit,
    Begin,
    End,
}

/// A command with its kind or its parameter.
#[derive(Clone, Copy, PartialEq, Eq, Debug)]
pub enum Verb {
    /// The command, its kind or its parameter is missing.
    Missing,
    Add(Kind),
    Remove,
    Connect,
    Disconnect,
    Set(Param),
    Load,
    Update,
    Audit,
    Begin,
    End,
}
