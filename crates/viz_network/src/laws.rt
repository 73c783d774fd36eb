//! What the networks of a history keep. A law is a function that does nothing: its contract holds
//! of the definitions alone.

ghost use Rattle.std.specs.Prelude.{◌≡◌, ◌+◌, ◌<◌, ℕ, List, length, Result};
ghost use Rattle.viz_network.specs.declared.edit.Edit.{Edit};
ghost use Rattle.viz_network.specs.Network.{Network};
ghost use Rattle.viz_network.specs.Applies.{Applies, IsPast};
ghost use Rattle.viz_network.specs.declared.refusal.ApplyStop.{ApplyStop};
ghost use Rattle.viz_network.specs.Edits.{apply};
ghost use Rattle.viz_network.specs.History.{after, net_of};
ghost use Rattle.viz_network.specs.EqualStamps.{IsSound, EqualStamps, StampsStay};

/// Each network of a history is sound: what feeds a port is there, no Add and no stamp is past the
/// history, and no position stands twice. An edit at a later position keeps that.
pub fn networks_are_sound()
    ensures each { (edits : List Edit) → IsSound (length edits) (net_of edits) }
    ensures past { (edits : List Edit) → IsPast (length edits + 1) (net_of edits) }
    ensures step { (p at : ℕ) (edit : Edit) (net : Network) → p < at → IsSound p net
        → IsSound at (after at edit net) }
    ensures applied { (p at : ℕ) (edit : Edit) (old new : Network)
        (answer : Result (Unit {0}) ApplyStop) → p < at → IsSound p old
        → Applies answer old new (apply at edit old) → IsSound at new }
{}

/// Where a node has equal stamps in the networks of a history and of a longer one, it has equal
/// cones in them, with all parameters and files.
pub fn equal_stamps_are_equal_cones()
    ensures law { EqualStamps }
{}

/// A stamp that a node has lost never comes back: where it isn't past a history, and the node has
/// it in the network of a longer one, the node has it in that of the history.
pub fn stamps_stay()
    ensures law { StampsStay }
{}
