//! What files keep. A law is a function that does nothing: its contract holds of the definitions
//! alone.

ghost use Rattle.viz_scratch.specs.Laws.{FilesAreOne};

use viz_node_meaning::scratch_is_one;

/// The file of a node is one text or one fault.
pub fn files_are_one()
    ensures law { FilesAreOne }
{
    scratch_is_one();
}
