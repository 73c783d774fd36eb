//! Edits in plain words.

use crate::story::Story;
use std::alloc::Global;
use std::test::Fail;
use viz_base::{Bytes, NodeId, Shared, Word};
use viz_network::{Edit, Kind, Param, Value};

/// An edit in plain words.
#[derive(Clone, Copy, Debug)]
pub(crate) enum Plan<'a> {
    Add(Kind, &'a str),
    /// From, to, and the port.
    Connect(&'a str, &'a str, u8),
    Set(&'a str, Param, u8, [i64; 8]),
    SetText(&'a str, Param, &'a str),
    Load(&'a str, &'a str),
}

fn word(text: &str) -> Result<Word, Fail> {
    Ok(Word::new(text.as_bytes()).ok_or("no name")?)
}

fn file_of(alloc: Global, text: &str) -> Result<Shared<Bytes>, Fail> {
    Ok(Shared::new(alloc, Bytes::new(text.as_bytes().to_vec(alloc)?))?)
}

fn connection(from: &str, to: &str, port: u8) -> Result<Edit, Fail> {
    let from = word(from)?;
    let to = word(to)?;
    Ok(Edit::Connect { from, to, port })
}

fn edit_of(alloc: Global, plan: &Plan<'_>) -> Result<Edit, Fail> {
    match plan {
        Plan::Add(kind, node) => Ok(Edit::Add {
            kind: *kind,
            node: word(node)?,
        }),
        Plan::Connect(from, to, port) => connection(from, to, *port),
        Plan::Set(node, param, count, items) => Ok(Edit::Set {
            node: word(node)?,
            param: *param,
            value: Value::Numbers {
                count: *count,
                items: *items,
            },
        }),
        Plan::SetText(node, param, text) => Ok(Edit::Set {
            node: word(node)?,
            param: *param,
            value: Value::Text(word(text)?),
        }),
        Plan::Load(node, text) => Ok(Edit::Load {
            node: word(node)?,
            file: file_of(alloc, text)?,
        }),
    }
}

/// Makes the edits.
pub(crate) fn make(alloc: Global, story: &mut Story, plans: &[Plan<'_>]) -> Result<(), Fail> {
    for plan in plans {
        let edit = edit_of(alloc, plan)?;
        if !story.apply(edit) {
            return Err("refused".into());
        }
    }
    Ok(())
}

/// The network of these edits.
pub(crate) fn network(alloc: Global, plans: &[Plan<'_>]) -> Result<Story, Fail> {
    let mut story = Story::new(alloc)?;
    make(alloc, &mut story, plans)?;
    Ok(story)
}

/// The node of a name.
pub(crate) fn node(story: &Story, name: &str) -> Result<NodeId, Fail> {
    Ok(story.net().find(&word(name)?).ok_or("no node")?)
}
