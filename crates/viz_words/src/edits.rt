//! The edit that a command tells.

ghost use Rattle.std.specs.Prelude.{◌≡◌};
ghost use Rattle.viz_words.specs.Words.{words_of};
ghost use Rattle.viz_words.specs.Edits.{add_in, remove_in, connect_in, disconnect_in};
ghost use Rattle.viz_words.specs.Edits.{value_set_in, edit_in};

use crate::arity::{one, three, two};
use crate::command::Verb;
use crate::names::node_name;
use crate::numbers::natural;
use crate::refusal::ScriptRefusal;
use crate::values::set_in;
use viz_kinds::{Kind, Param};
use viz_network::Edit;

#[tactic(auto, unfolding(crate::specs::Edits::add_in))]
fn add_in(kind: Kind, text: &[u8]) -> Result<Edit, ScriptRefusal>
    ensures { result ≡ add_in kind (words_of text.now) }
{
    let (_, node) = two(text)?;
    let node = node_name(node)?;
    Ok(Edit::Add { kind, node })
}

#[tactic(auto, unfolding(crate::specs::Edits::remove_in))]
fn remove_in(text: &[u8]) -> Result<Edit, ScriptRefusal>
    ensures { result ≡ remove_in (words_of text.now) }
{
    let node = one(text)?;
    let node = node_name(node)?;
    Ok(Edit::Remove { node })
}

#[tactic(auto, unfolding(crate::specs::Edits::connect_in))]
fn connect_in(text: &[u8]) -> Result<Edit, ScriptRefusal>
    ensures { result ≡ connect_in (words_of text.now) }
{
    let (from, to, port) = three(text)?;
    let from = node_name(from)?;
    let to = node_name(to)?;
    let port = natural(port, 0, 255)?;
    Ok(Edit::Connect {
        from,
        to,
        port: port as u8,
    })
}

#[tactic(auto, unfolding(crate::specs::Edits::disconnect_in))]
fn disconnect_in(text: &[u8]) -> Result<Edit, ScriptRefusal>
    ensures { result ≡ disconnect_in (words_of text.now) }
{
    let (to, port) = two(text)?;
    let to = node_name(to)?;
    let port = natural(port, 0, 255)?;
    Ok(Edit::Disconnect {
        to,
        port: port as u8,
    })
}

#[tactic(auto, unfolding(crate::specs::Edits::value_set_in))]
fn value_set_in(param: Param, text: &[u8]) -> Result<Edit, ScriptRefusal>
    ensures { result ≡ value_set_in param (words_of text.now) }
{
    let (node, value) = set_in(param, text)?;
    Ok(Edit::Set { node, param, value })
}

/// The edit that a command tells with the words behind it: add, remove, connect, disconnect or set.
///
/// # Errors
///
/// Arity, Name or Number, in this order; Arity where the command is another.
pub fn edit_in(verb: Verb, text: &[u8]) -> Result<Edit, ScriptRefusal>
    ensures value { result ≡ edit_in verb (words_of text.now) }
{
    match verb {
        Verb::Add(kind) => add_in(kind, text),
        Verb::Remove => remove_in(text),
        Verb::Connect => connect_in(text),
        Verb::Disconnect => disconnect_in(text),
        Verb::Set(param) => value_set_in(param, text),
        _ => Err(ScriptRefusal::Arity),
    }
}
