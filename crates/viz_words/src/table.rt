//! The words of commands, kinds and parameters.

ghost use Rattle.std.specs.Prelude.{◌≡◌};
ghost use Rattle.viz_words.specs.Tables.{command_word, kind_word, param_word, command_named};
ghost use Rattle.viz_words.specs.Tables.{kind_named, param_named};

use crate::command::Command;
use viz_kinds::{Kind, Param};

/// The commands.
const COMMANDS: [Command; 10] = [
    Command::Add,
    Command::Remove,
    Command::Connect,
    Command::Disconnect,
    Command::Set,
    Command::Load,
    Command::Update,
    Command::Audit,
    Command::Begin,
    Command::End,
];

/// The kinds.
const KINDS: [Kind; 14] = [
    Kind::File,
    Kind::Crop,
    Kind::Sample,
    Kind::Threshold,
    Kind::Smooth,
    Kind::Arith,
    Kind::Tets,
    Kind::Select,
    Kind::Contour,
    Kind::Cut,
    Kind::Append,
    Kind::Boundary,
    Kind::Merge,
    Kind::Writer,
];

/// The parameters.
const PARAMS: [Param; 14] = [
    Param::Array,
    Param::Unit,
    Param::Bounds,
    Param::Rate,
    Param::Range,
    Param::Radius,
    Param::Op,
    Param::Mode,
    Param::Levels,
    Param::Plane,
    Param::Style,
    Param::Digits,
    Param::Release,
    Param::Version,
];

/// The word of a command.
pub fn command_word(command: Command) -> &'static [u8]
    ensures value { result.now ≡ command_word command }
{
    match command {
        Command::Add => b"add",
        Command::Remove => b"remove",
        Command::Connect => b"connect",
        Command::Disconnect => b"disconnect",
        Command::Set => b"set",
        Command::Load => b"load",
        Command::Update => b"update",
        Command::Audit => b"audit",
        Command::Begin => b"begin",
        Command::End => b"end",
    }
}

/// The word of a kind of node.
pub fn kind_word(kind: Kind) -> &'static [u8]
    ensures value { result.now ≡ kind_word kind }
{
    match kind {
        Kind::File => b"file",
        Kind::Crop => b"crop",
        Kind::Sample => b"sample",
        Kind::Threshold => b"threshold",
        Kind::Smooth => b"smooth",
        Kind::Arith => b"arith",
        Kind::Tets => b"tets",
        Kind::Select => b"select",
        Kind::Contour => b"contour",
        Kind::Cut => b"cut",
        Kind::Append => b"append",
        Kind::Boundary => b"boundary",
        Kind::Merge => b"merge",
        Kind::Writer => b"writer",
    }
}

/// The word of a parameter.
pub fn param_word(param: Param) -> &'static [u8]
    ensures value { result.now ≡ param_word param }
{
    match param {
        Param::Array => b"array",
        Param::Unit => b"unit",
        Param::Bounds => b"box",
        Param::Rate => b"rate",
        Param::Range => b"range",
        Param::Radius => b"radius",
        Param::Op => b"op",
        Param::Mode => b"mode",
        Param::Levels => b"levels",
        Param::Plane => b"plane",
        Param::Style => b"form",
        Param::Digits => b"digits",
        Param::Release => b"release",
        Param::Version => b"version",
    }
}

/// The command of this word.
pub fn command_named(text: &[u8]) -> Option<Command>
    ensures value { result ≡ command_named text.now }
{
    for command in &COMMANDS {
        if text == command_word(*command) {
            return Some(*command);
        }
    }
    None
}

/// The kind that is read with this word.
pub fn kind_named(text: &[u8]) -> Option<Kind>
    ensures value { result ≡ kind_named text.now }
{
    for kind in &KINDS {
        if text == kind_word(*kind) {
            return Some(*kind);
        }
    }
    None
}

/// The parameter that is read with this word.
pub fn param_named(text: &[u8]) -> Option<Param>
    ensures value { result ≡ param_named text.now }
{
    for param in &PARAMS {
        if text == param_word(*param) {
            return Some(*param);
        }
    }
    None
}
