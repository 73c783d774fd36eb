//! What is told of the nodes of a cone.

ghost use Rattle.std.specs.Prelude.{◌≡◌, ◌+◌, ◌<◌, IfOk, OnOk, length};
ghost use Rattle.viz_inform.specs.Steps.Taking.{AreTaken};

use crate::headers::Known;
use std::alloc::{AllocError, Global};
use viz_base::NodeId;
use viz_network::Step;
use viz_node_meaning::Information;

/// What is known of a node's dataset before its numbers are.
#[derive(Clone, Copy, Debug)]
pub struct Told {
    pub node: NodeId,
    pub information: Information,
}

// Adds what is known of the step at this place, where the step has a mark.
fn tell(
    told: &mut Vec<Told>,
    steps: &[Step],
    marks: &[bool],
    table: &[Known],
    place: usize,
) -> Result<(), AllocError>
    requires count { length marks.now ≡ length steps.now }
    requires within { place < length steps.now }
    requires told { AreTaken steps.now marks.now table.now place told.old.items }
    ensures { OnOk result (AreTaken steps.now marks.now table.now (place + 1) told.new.items) }
{
    if !marks[place] {
        return Ok(());
    }
    let Some(Some(Ok(information))) = table.get(place) else {
        return Err(AllocError);
    };
    let node = steps[place].node;
    let information = *information;
    told.push(Told { node, information })?;
    Ok(())
}

/// What is known of the marked steps, in their order.
pub fn told_of(
    alloc: Global,
    steps: &[Step],
    marks: &[bool],
    table: &[Known],
) -> Result<Vec<Told>, AllocError>
    requires count { length marks.now ≡ length steps.now }
    ensures { IfOk result (λ told.
        AreTaken steps.now marks.now table.now (length steps.now) told.items) }
{
    let mut told = Vec::with_capacity(alloc, steps.len())?;
    for place in 0..steps.len() {
        tell(&mut told, steps, marks, table, place)?;
    }
    Ok(told)
}
