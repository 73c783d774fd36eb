//! Laws of what nodes give. A law is a function that does nothing: its contract holds of the
//! definitions alone.

ghost use Rattle.viz_node_total.specs.Laws.{
  ConesGive,
  ConesHaveBytes,
  ConesInform,
  GivenAreValid,
  HistoriesGive,
  HistoriesHaveBytes,
  NodesGive,
  NodesInform,
};

use viz_legacy_read::files_are_definite;
use viz_node_meaning::rules_are_one;

/// Each node has information, or there is a first fault in it or upstream of it.
pub fn information_is_given()
    ensures cones { ConesInform }
    ensures nodes { NodesInform }
{
    files_are_definite();
}

/// What an edit loads stays as it is: where only bytes are loaded, all files are of bytes.
pub fn histories_load_bytes()
    ensures histories { HistoriesHaveBytes }
    ensures cones { ConesHaveBytes }
{}

/// Each node gives a dataset, or there is a first fault in it or upstream of it; an image that is
/// given has numbers of its type for all its points.
pub fn scratch_is_given()
    ensures cones { ConesGive }
    ensures nodes { NodesGive }
    ensures histories { HistoriesGive }
    ensures valid { GivenAreValid }
{
    files_are_definite();
    rules_are_one();
}
