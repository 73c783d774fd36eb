//! Laws of audits. A law is a function that does nothing: its contract holds of the definitions
//! alone.

ghost use Rattle.viz_account_total.specs.Laws.{AuditsAreGiven, HistoriesHaveAudits};

use viz_node_meaning::scratch_is_one;
use viz_node_total::{histories_load_bytes, scratch_is_given};

/// The audit of a node has counts, or a fault.
pub fn audits_are_given()
    ensures nodes { AuditsAreGiven }
    ensures histories { HistoriesHaveAudits }
{
    scratch_is_one();
    scratch_is_given();
    histories_load_bytes();
}
