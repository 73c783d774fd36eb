//! Laws of the files of nodes. A law is a function that does nothing: its contract holds of the
//! definitions alone.

ghost use Rattle.viz_scratch_total.specs.Laws.{FilesAreGiven, HistoriesHaveFiles};

use viz_node_total::{histories_load_bytes, scratch_is_given};

/// There is a text of what a node gives, or a fault.
pub fn files_are_given()
    ensures nodes { FilesAreGiven }
    ensures histories { HistoriesHaveFiles }
{
    scratch_is_given();
    histories_load_bytes();
}
