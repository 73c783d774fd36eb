//! Laws of the tasks of a plan. A law is a function that does nothing: its contract holds of the
//! definitions alone.

ghost use Rattle.viz_task_parts.specs.Tasks.{
  DatasetsArePassed,
  PartsArePassed,
  TasksFail,
  TasksMake,
  TasksTake,
};

use viz_given::given_meshes_are_leveled;
use viz_node_division::{datasets_are_divided, divided_by_ports, divisions_share_out};
use viz_node_gives::nodes_make_exact;
use viz_node_parts::{asked_parts_are_taken, parts_made_answer};
use viz_plan_law::{plans_fit, told_is_of_datasets};

/// Of parts of what feeds its node, for what it asks for, a task makes a part of what the node
/// gives; where it fails, its file isn't read, or a section of what feeds it has a wide number.
pub fn tasks_make_parts()
    ensures take { TasksTake }
    ensures made { TasksMake }
    ensures fault { TasksFail }
{
    asked_parts_are_taken();
    datasets_are_divided();
    divided_by_ports();
    divisions_share_out();
    given_meshes_are_leveled();
    nodes_make_exact();
    parts_made_answer();
    plans_fit();
    told_is_of_datasets();
}

/// Parts of what feeds a writer are parts of the writer, and what a writer gives from scratch is
/// what feeds it.
pub fn parts_are_passed()
    ensures passed { PartsArePassed }
    ensures datasets { DatasetsArePassed }
{
    divided_by_ports();
}
