//! Laws of plans that came out. A function that calls one may rest on it.

ghost use Rattle.viz_plan_truth.specs.Faults.{FaultsShow};
ghost use Rattle.viz_plan_truth.specs.Truth.{PlansAreNarrow, PlansGive, PlansMakeParts};

use viz_given::given_meshes_are_leveled;
use viz_node_division::{datasets_are_divided, divisions_share_out};
use viz_node_meaning::rules_are_one;
use viz_node_narrow::{given_sections_are_narrow, pieces_make_narrow};
use viz_piece_divisions::sections_of_pieces_are_narrow;
use viz_plan_law::kept_parts_serve;
use viz_requests::serving_is_an_order;

/// Where a plan of requests for all of what a node gives came out, no number of a section is wide
/// at any node upstream; what the node gives by the exact rule it gives from scratch, and each part
/// of a task is one that its node gives so.
pub fn plans_are_narrow()
    ensures narrow { PlansAreNarrow }
    ensures gives { PlansGive }
    ensures made { PlansMakeParts }
{
    datasets_are_divided();
    divisions_share_out();
    given_meshes_are_leveled();
    given_sections_are_narrow();
    kept_parts_serve();
    pieces_make_narrow();
    serving_is_an_order();
}

/// Where a task of a plan failed, the node of the plan gives no dataset.
pub fn faults_show()
    ensures faults { FaultsShow }
{
    datasets_are_divided();
    given_meshes_are_leveled();
    given_sections_are_narrow();
    pieces_make_narrow();
    rules_are_one();
    sections_of_pieces_are_narrow();
}
