//! What nodes give. A law is a function that does nothing: its contract holds of the definitions
//! alone.

ghost use Rattle.viz_node_meaning.specs.Data.{DataRule};
ghost use Rattle.viz_node_meaning.specs.Information.{InformationRule};
ghost use Rattle.viz_node_meaning.specs.Laws.{ConesGiveOne, EqualStampsGiveOne};
ghost use Rattle.viz_node_meaning.specs.Rules.{IsOne};

use viz_image_ops::parts_are_determined;
use viz_legacy_read::files_are_definite;
use viz_network::equal_stamps_are_equal_cones;

/// Each rule has at most one result for a node and what feeds it.
pub fn rules_are_one()
    ensures information { IsOne InformationRule }
    ensures data { IsOne DataRule }
{
    files_are_definite();
    parts_are_determined();
}

/// What a node gives is one dataset or one fault, and depends on its cone alone.
pub fn scratch_is_one()
    ensures cones { ConesGiveOne }
{
    rules_are_one();
}

/// Where a node has equal stamps in the networks of a history and of a longer one, it gives the
/// same in both.
pub fn equal_stamps_give_one()
    ensures law { EqualStampsGiveOne }
{
    equal_stamps_are_equal_cones();
}
