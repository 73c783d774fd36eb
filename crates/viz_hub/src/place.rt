//! A pass of the turn, with the number of its entries and what it published.

ghost use Rattle.std.specs.Prelude.{◌≡◌};
ghost use Rattle.viz_turn.specs.Passes.{known};
ghost use Rattle.viz_hub.specs.Steps.Turns.{count_of};

use crate::sent::Sent;
use viz_history::Core;
use viz_turn::TurnPass;

/// How often a pass published, modulo 2^64, and what last.
#[derive(Clone, Copy)]
pub struct Told {
    pub(crate) sent: u64,
    pub(crate) last: Option<Sent>,
}

/// Of a pass that published nothing.
pub(crate) const NONE: Told = Told {
    sent: 0,
    last: None,
};

/// A pass of the turn, how many entries have its number, and what it tells of its publications.
#[derive(Drop)]
pub struct Place {
    pub(crate) pass: TurnPass<Core>,
    pub(crate) count: u32,
    pub(crate) told: Told,
    ghost counted: { count ≡ count_of (known pass) },
}
