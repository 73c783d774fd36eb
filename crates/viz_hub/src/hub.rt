//! The hub, its passes and pins, and the journal.

use crate::place::Place;
use std::marker::Model;
use viz_base::Items;
use viz_entries::Entry;
use viz_history::{Core, Pinned};
use viz_turn::Turn;

/// One history for all callers, who share it by reference. Contracts see which hub it is, and its
/// limit as the mark.
#[derive(Drop)]
pub struct Hub {
    pub(crate) turn: Turn<Core>,
}

impl Model for Hub {
    ghost use Rattle.viz_turn.specs.Known.{Identity};
    ghost use Rattle.viz_hub.specs.Steps.Turns.{hub_of};

    ghost Value = { Identity };

    ghost view = { λ hub. hub_of hub.turn };
}

/// What one caller knows of the history, and what it published. It may go to another thread. Others
/// go on without a pass that was dropped, but no pass is whole any more that would need it.
#[derive(Drop)]
pub struct Pass {
    // None only within a call.
    pub(crate) place: Option<Place>,
}

impl Model for Pass {
    ghost use Rattle.std.specs.Prelude.{IsSome};
    ghost use Rattle.viz_hub.specs.Passes.{PassKnown};
    ghost use Rattle.viz_hub.specs.Steps.Places.{known_of};

    ghost Value = { PassKnown };

    ghost view = { λ pass. known_of pass.place };

    ghost invariant = { λ pass. IsSome pass.place };
}

/// A pass, and the network of what it has seen, which stays as it is while others edit. It may go
/// to another thread.
#[derive(Drop)]
pub struct Pin {
    pub(crate) pass: Pass,
    pub(crate) pinned: Pinned,
}

impl Model for Pin {
    ghost use Rattle.viz_hub.specs.Passes.{PinKnown};
    ghost use Rattle.viz_hub.specs.Steps.Turns.{IsPinned};

    ghost Value = { PinKnown };

    ghost view = { λ pin. record { pass = pin.pass; entries = pin.pinned.entries } };

    ghost invariant = { λ pin. IsPinned pin.pass pin.pinned };
}

/// The history that a hub was closed with.
#[derive(Debug, Drop)]
pub struct Journal {
    pub entries: Items<Entry>,
}
