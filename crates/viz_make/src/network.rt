//! The network in which a made volume is contoured.

ghost use Rattle.std.specs.Prelude.{◌≡◌, IfOk, OnOk};
ghost use Rattle.viz_network.specs.Applies.{IsPast};
ghost use Rattle.viz_network.specs.History.{after};
ghost use Rattle.viz_network.specs.declared.edit.Edit.TheVariants.{Set};
ghost use Rattle.viz_make.specs.Steps.Contouring.{iso, network_with, value_of};

use std::alloc::{AllocError, Global};
use viz_base::{Bytes, NodeId, Shared, Word};
use viz_network::{ApplyStop, Edit, Kind, Net, Param, Value};

/// The contour's node: its Add is the third edit.
pub const CONTOUR: NodeId = NodeId(3);

/// The level of the contour that is audited.
const MIDDLE: i64 = 128;

/// A number as the value of a parameter.
fn value_of(number: i64) -> Value
    ensures { result ≡ value_of number }
{
    Value::Numbers {
        count: 1,
        items: [number, 0, 0, 0, 0, 0, 0, 0],
    }
}

/// The network after an edit at a position: one that it refuses changes nothing.
fn go_on(net: &mut Net, at: u32, edit: &Edit) -> Result<(), AllocError>
    requires later { IsPast at net.old }
    ensures { OnOk result (net.new ≡ after at edit.now net.old) }
{
    match net.apply(at, edit) {
        Ok(()) | Err(ApplyStop::Refused(_)) => Ok(()),
        Err(ApplyStop::Memory) => Err(AllocError),
    }
}

/// The network behind the value of a parameter of the contour.
fn set_contour(net: &mut Net, at: u32, param: Param, number: i64) -> Result<(), AllocError>
    requires later { IsPast at net.old }
    ensures { OnOk result (net.new ≡ after at (Set iso param (value_of number)) net.old) }
{
    let node = Word::new(b"iso").unwrap();
    let value = value_of(number);
    go_on(net, at, &Edit::Set { node, param, value })
}

/// The network with this text as its file. What its contour gives is released: it is asked for once.
pub fn network_with(alloc: Global, text: Shared<Bytes>) -> Result<Net, AllocError>
    ensures { IfOk result (λ net. net ≡ network_with text) }
{
    let node = Word::new(b"src").unwrap();
    let iso = Word::new(b"iso").unwrap();
    let mut net = Net::new(alloc);
    let kind = Kind::File;
    go_on(&mut net, 1, &Edit::Add { kind, node })?;
    go_on(&mut net, 2, &Edit::Load { node, file: text })?;
    let kind = Kind::Contour;
    go_on(&mut net, 3, &Edit::Add { kind, node: iso })?;
    let port = 1;
    go_on(
        &mut net,
        4,
        &Edit::Connect {
            from: node,
            to: iso,
            port,
        },
    )?;
    set_contour(&mut net, 5, Param::Levels, MIDDLE)?;
    set_contour(&mut net, 6, Param::Release, 1)?;
    Ok(net)
}
