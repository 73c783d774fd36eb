//! Laws on batches. A law is a function that does nothing: its contract holds of the definitions
//! alone.

ghost use Rattle.std.specs.Prelude.{◌≡◌, ◌+◌, ◌++◌, ℕ, List, Result, Ok, length};
ghost use Rattle.viz_network.specs.declared.edit.Edit.{Edit};
ghost use Rattle.viz_network.specs.Network.{Network};
ghost use Rattle.viz_network.specs.History.{net_after, net_of};
ghost use Rattle.viz_batches.specs.declared.stop.BatchStop.{BatchStop};
ghost use Rattle.viz_batches.specs.Batches.{apply_all};
ghost use Rattle.viz_batches.specs.AppliesAll.{AppliesAll, IsSoundBefore};

/// An accepted batch makes what its edits make one by one; behind a history it makes the network of
/// the longer one.
pub fn accepted_batches_are_their_edits()
    ensures same { (at : ℕ) (edits : List Edit) (net made : Network)
        → apply_all at edits net ≡ Ok made → made ≡ net_after at edits net }
    ensures longer { (edits more : List Edit) (made : Network)
        → apply_all (length edits + 1) more (net_of edits) ≡ Ok made
        → made ≡ net_of (edits ++ more) }
{}

/// The network of a history is sound before the position behind it, and what a batch leaves, made
/// or not, before the position behind its last one.
pub fn histories_are_sound()
    ensures history { (edits : List Edit) → IsSoundBefore (length edits + 1) (net_of edits) }
    ensures applied { (at : ℕ) (edits : List Edit) (old new : Network)
        (answer : Result (Unit {0}) BatchStop) → IsSoundBefore at old
        → AppliesAll answer old new (apply_all at edits old)
        → IsSoundBefore (at + length edits) new }
{}
