//! Laws on what is made of files. A law is a function that does nothing: its contract holds of the
//! definitions alone.

ghost use Rattle.viz_reshape.specs.Laws.{ReshapesAreOne};

use viz_node_meaning::rules_are_one;
use viz_strip::strips_are_one;

/// Of a file there is one text with its counts, or one fault.
pub fn reshapes_are_one()
    ensures one { ReshapesAreOne }
{
    rules_are_one();
    strips_are_one();
}
