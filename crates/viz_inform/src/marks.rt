//! Marks of all that lies upstream of a node.

ghost use Rattle.std.specs.Prelude.{◌≡◌, ◌+◌, ◌<◌, IfOk, IfSome, Some, length, slice_get};
ghost use Rattle.viz_network.specs.Step.{AreSteps};
ghost use Rattle.viz_inform.specs.Above.{AreBelow, AreMarks, all_marked, marked};

use std::alloc::{AllocError, Global};
use viz_network::{Net, Step};

// Marks the place that feeds a port.
fn mark(marks: &mut Vec<bool>, input: &Option<usize>)
    requires { IfSome input.now (λ place. place < length marks.old.items) }
    ensures { marks.new.items ≡ marked marks.old.items input.now }
{
    if let Some(place) = input {
        marks[*place] = true;
    }
}

// Marks the places that feed ports.
fn mark_all(marks: &mut Vec<bool>, inputs: &[Option<usize>])
    requires { AreBelow (length marks.old.items) inputs.now }
    ensures { marks.new.items ≡ all_marked marks.old.items inputs.now }
{
    for input in inputs {
        mark(marks, input);
    }
}

// Marks what feeds the step at this place, where the step has a mark.
fn pass_on(net: &Net, steps: &[Step], sink: usize, place: usize, step: &Step, marks: &mut Vec<bool>)
    requires steps { AreSteps net.now steps.now }
    requires at { slice_get steps.now place ≡ Some step.now }
    requires marks { AreMarks net.now steps.now sink (place + 1) marks.old.items }
    ensures { AreMarks net.now steps.now sink place marks.new.items }
{
    if marks[place] {
        mark_all(marks, &step.inputs);
    }
}

/// Marks the step of the sink and all steps upstream of it, from the sink back to the first step:
/// a mark for each step.
pub fn marks_above(
    alloc: Global,
    net: &Net,
    steps: &[Step],
    sink: usize,
) -> Result<Vec<bool>, AllocError>
    requires steps { AreSteps net.now steps.now }
    requires within { sink < length steps.now }
    ensures value { IfOk result (λ marks. AreMarks net.now steps.now sink 0 marks.items) }
{
    let mut marks = Vec::from_elem(alloc, false, steps.len())?;
    marks[sink] = true;
    for behind in 0..sink + 1 {
        let place = sink - behind;
        pass_on(net, steps, sink, place, &steps[place], &mut marks);
    }
    Ok(marks)
}
