//! The information pass: what is known of each step before numbers are, by headers alone.

ghost use Rattle.std.specs.Prelude.{◌≡◌, IfOk, Some, length, map, slice_get};
ghost use Rattle.viz_network.specs.Cone.{cone_of};
ghost use Rattle.viz_network.specs.Step.{AreSteps, nodes_of};
ghost use Rattle.viz_node_meaning.specs.Fold.{IsGiven, IsMade};
ghost use Rattle.viz_node_meaning.specs.Information.{InformationRule};
ghost use Rattle.viz_node_rules.specs.Places.{value_at};
ghost use Rattle.viz_inform.specs.Informed.{IsInformedAs};
ghost use Rattle.viz_inform.specs.Table.{told, anything, always, IsTable};

use crate::gathered::fault_in;
use std::alloc::{AllocError, Global};
use viz_base::NodeId;
use viz_network::{Fault, Net, Node, Step};
use viz_node_meaning::Information;
use viz_node_rules::own_information;

/// What is known of a step, or its first fault.
pub type Known = Option<Result<Information, Fault>>;

fn information_at(table: &[Known], place: &Option<usize>) -> Option<Information>
    ensures { result ≡ value_at table.now place.now }
{
    let Some(place) = place else {
        return None;
    };
    match table.get(*place) {
        Some(Some(Ok(information))) => Some(*information),
        _ => None,
    }
}

// What is known at the eight ports.
fn inputs_of(table: &[Known], places: &[Option<usize>; 8]) -> [Option<Information>; 8]
    ensures { result ≡ map (value_at table.now) places.now }
{
    let [a, b, c, d, e, f, g, h] = places;
    [
        information_at(table, a),
        information_at(table, b),
        information_at(table, c),
        information_at(table, d),
        information_at(table, e),
        information_at(table, f),
        information_at(table, g),
        information_at(table, h),
    ]
}

fn known_of(table: &[Known], node: &Node, places: &[Option<usize>; 8]) -> Result<Information, Fault>
    ensures { IsMade InformationRule node.now (told table.now places.now) result }
{
    if let Some(fault) = fault_in(table, places) {
        return Err(fault);
    }
    match own_information(node, &inputs_of(table, places)) {
        Ok(information) => Ok(information),
        Err(cause) => Err(Fault {
            node: node.id,
            cause,
        }),
    }
}

/// What is known of each step, or its first fault.
pub fn information_pass(alloc: Global, net: &Net, steps: &[Step]) -> Result<Vec<Known>, AllocError>
    requires { AreSteps net.now steps.now }
    ensures { IfOk result (λ table.
        IsTable InformationRule anything always net.now steps.now (length steps.now) table.items) }
{
    let mut table = Vec::with_capacity(alloc, steps.len())?;
    for step in steps {
        let node = net.node(step.node).unwrap();
        let known = known_of(&table, node, &step.inputs);
        table.push(Some(known))?;
    }
    Ok(table)
}

/// The first information fault at or above a node, whose step stands at this place.
pub fn information_fault(
    alloc: Global,
    net: &Net,
    steps: &[Step],
    sink: usize,
    node: NodeId,
) -> Result<Option<Fault>, AllocError>
    requires steps { AreSteps net.now steps.now }
    requires at { slice_get (nodes_of steps.now) sink ≡ Some node }
    ensures value { IfOk result (IsInformedAs (IsGiven InformationRule (cone_of net.now node.0))) }
{
    let known = information_pass(alloc, net, steps)?;
    match known.get(sink) {
        Some(Some(Err(fault))) => Ok(Some(*fault)),
        Some(Some(Ok(_))) => Ok(None),
        _ => Err(AllocError),
    }
}
