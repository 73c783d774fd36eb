//! Whether a network refuses a Set, before any is made.

ghost use Rattle.std.specs.Prelude.{◌≡◌, ◌<◌, ◌↔◌, All, IsTrue, length};
ghost use Rattle.std.specs.Option.{option_map};
ghost use Rattle.viz_network.specs.EqualStamps.{IsAscending};
ghost use Rattle.viz_network.specs.Network.{named};
ghost use Rattle.viz_network.specs.Readers.{kind_at};
ghost use Rattle.viz_batches.specs.AppliesAll.{IsSet};
ghost use Rattle.viz_batches.specs.Steps.Checking.{AnswersCheck, check_of, set_check, check_each};

use crate::stop::BatchStop;
use viz_base::Word;
use viz_kinds::allows;
use viz_network::{Edit, Kind, Net, Param, Refusal, Value};

fn is_set(edit: &Edit) -> bool
    ensures { IsTrue result ↔ IsSet edit.now }
{
    matches!(edit, Edit::Set { .. })
}

/// Whether all are Sets.
pub fn are_sets(edits: &[Edit]) -> bool
    ensures { IsTrue result ↔ All IsSet edits.now }
{
    edits.iter().all(|edit| is_set(edit))
}

fn kind_named(net: &Net, node: &Word) -> Option<Kind>
    requires { IsAscending net.now }
    ensures { result ≡ option_map kind_at (named net.now node.now) }
{
    net.kind(net.find(node)?)
}

// What refuses the Set.
fn check_set(net: &Net, node: &Word, param: Param, value: &Value) -> Result<(), Refusal>
    requires { IsAscending net.now }
    ensures { result ≡ set_check net.now node.now param value.now }
{
    let Some(kind) = kind_named(net, node) else {
        return Err(Refusal::Unknown);
    };
    if !kind.has(param) {
        return Err(Refusal::NoParam);
    }
    if !allows(param, value) {
        return Err(Refusal::BadValue);
    }
    Ok(())
}

// What refuses the edit, where it is a Set.
fn check(net: &Net, edit: &Edit) -> Result<(), Refusal>
    requires { IsAscending net.now }
    ensures { result ≡ check_of net.now edit.now }
{
    match edit {
        Edit::Set { node, param, value } => check_set(net, node, *param, value),
        _ => Ok(()),
    }
}

/// The first of the edits that the network refuses; all are Sets.
pub fn check_all(net: &Net, edits: &[Edit]) -> Result<(), BatchStop>
    requires ascending { IsAscending net.now }
    requires few { length edits.now < 4294967296 }
    ensures { AnswersCheck result (check_each 1 edits.now net.now) }
{
    for (i, edit) in edits.iter().enumerate() {
        if let Err(refusal) = check(net, edit) {
            return Err(BatchStop::Refused {
                index: i as u32 + 1,
                refusal,
            });
        }
    }
    Ok(())
}
