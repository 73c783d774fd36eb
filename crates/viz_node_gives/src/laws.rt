//! Laws of what nodes are sure to give. A law is a function that does nothing: its contract holds
//! of the definitions alone.

ghost use Rattle.viz_node_gives.specs.Gives.{NodesMakeExact};

use viz_node_division::datasets_are_divided;
use viz_node_meaning::rules_are_one;
use viz_plan_law::told_is_of_datasets;

/// Of what feeds it a node whose information is told, and whose file is read, makes a dataset.
pub fn nodes_make_exact()
    ensures made { NodesMakeExact }
{
    rules_are_one();
    told_is_of_datasets();
    datasets_are_divided();
}
