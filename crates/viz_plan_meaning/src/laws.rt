//! What plans keep. A law is a function that does nothing: its contract holds of the definitions
//! alone.

ghost use Rattle.viz_plan_meaning.specs.Laws.{PlansStand};

use viz_requests::serving_is_an_order;

/// The tasks of a plan have levels as defined, each above those that it uses. Level by level no
/// task is lost, each finds what it asks for, and all requests are met.
pub fn plans_stand()
    ensures law { PlansStand }
{
    serving_is_an_order();
}
