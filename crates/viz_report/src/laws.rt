//! A law on reports. A law is a function that does nothing: its contract holds of the definitions
//! alone.

ghost use Rattle.viz_report.specs.Report.{OneActorIsInOrder};

/// Where all other actors have no lines, the rows of a report are the first one's lines through all
/// phases, with their numbers.
pub fn one_actor_is_reported_in_order()
    ensures rows { OneActorIsInOrder }
{}
