//! What true parts keep. A law is a function that does nothing: its contract holds of the
//! definitions alone.

ghost use Rattle.viz_kept.specs.Laws.{
  MadeIsTrue,
  OvertakenIsTrue,
  TrueInNetwork,
  TrueOfLonger,
  TruePartAnswers,
  TruePartIsGiven,
};

use viz_node_meaning::scratch_is_one;

/// What is made in the network of a prefix is true of the history.
pub fn made_is_true()
    ensures law { MadeIsTrue }
{}

/// What is true of a history is true of every longer one, and in its network.
pub fn true_of_longer()
    ensures longer { TrueOfLonger }
    ensures network { TrueInNetwork }
{}

/// What stands under the key of an overtaken part is true of the history, whatever the part is: its
/// node never has the key's stamp again.
pub fn overtaken_is_true()
    ensures law { OvertakenIsTrue }
{}

/// A true part whose node has its stamp is of a node that gives a dataset, and a part of every
/// dataset that the node gives.
pub fn true_parts_answer()
    ensures given { TruePartIsGiven }
    ensures answers { TruePartAnswers }
{
    scratch_is_one();
}
